// Programs: prints the listing of the network file that comes on standard input.
// No file that loads has as many bytes as are read, so these decide for any longer one.
#![tactic(auto)]

use network::DECIDING_BYTES;
use render::MOST_LISTING_BYTES;

fn print_listing(rt: HostRuntime, file: &[u8]) {
    let mut text = [0u8; MOST_LISTING_BYTES];
    let n = render::put_listing(&mut text, file);
    streams::print(rt, &text[..n]);
}

fn main(rt: HostRuntime) {
    let mut file = [0u8; DECIDING_BYTES];
    match streams::read_from(&mut rt.stdin(), &mut file) {
        Ok(n) => print_listing(rt, &file[..n]),
        Err(_) => {
            streams::print(rt, b"cannot read the input\n");
        }
    }
}
