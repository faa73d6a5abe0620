// Programs: the digits of the tables that a listing or an answer shows.
#![tactic(auto)]

ghost use Rattle.std.specs.Prelude.{◌≡◌, ◌≤◌};
ghost use Rattle.network.specs.Bounds.{most_gates};
ghost use Rattle.network.specs.Flat.{loaded_net};
ghost use Rattle.tabletext.specs.Digits.{digits};

use network::{NARROW_MOST, Session};

// The most fan-ins of a gate's narrow record, and the digits of a table where no gate has more.
const NARROW_FANINS: u8 = NARROW_MOST as u8;

const NARROW_DIGITS: usize = 4;

// How many digits every table of a session's network has.
pub fn digits_of(s: Session) -> usize
    requires { s.m ≤ most_gates }
    ensures { result ≡ digits (loaded_net s) }
{
    let m = usize::from(s.m);
    let arity = s.arity;
    if arity[..m].iter().any(|k| NARROW_FANINS < *k) {
        return text::WORD_DIGITS;
    }
    NARROW_DIGITS
}
