// The short ways of an update's last steps, told from the record's words without decoding them.
// In order: Number; Finish. A short way tests all that it needs, of the words
// and of the tables; where a test fails it changes nothing and says so: the step is then the register's, on the record
// decoded. proofs/Agrees.antt has that what a short way tells is that step's outcome.
// Not here: an update's other steps (crates shortly, advancing, register), storing the words and the answer (crate
// stepping). Assumes nothing.
#![tactic(auto)]

ghost use Rattle.std.specs.Prelude.{◌≡◌};
ghost use Rattle.terms.specs.Terms.{small};
ghost use Rattle.closing.specs.Closing.{number_ahead, finished, finish_ahead};

use encoding::{OpWords, PhaseWords, kind, phase};
use steps::Laid;

// Tells the update's number.
#[tactic(auto, unfolding(crate::specs::Closing::number_ahead))]
pub fn number(stamp: u32, o: OpWords, p: PhaseWords) -> Option<u32>
    ensures { result ≡ number_ahead small stamp o p }
{
    if p.phase == phase::NUMBER && p.e == 0 && advancing::updates(o) && stamp < 1020 {
        return Some(stamp + 1);
    }
    None
}

// Tells whether it is one, and then has finished both entries and unlocked.
#[tactic(auto, unfolding(crate::specs::Closing::finish_ahead, crate::specs::Closing::usable_ahead))]
pub fn finish(nodes: &mut [u32], entries: &mut [u32], o: OpWords, p: PhaseWords) -> bool
    ensures { finished nodes.new entries.new result
        ≡ finish_ahead small nodes.old entries.old o p }
{
    if p.phase != phase::FINISH || !advancing::updates(o) {
        return false;
    }
    let removes = o.kind == kind::REMOVE;
    let laid = Laid {
        pred: p.a,
        node: p.b,
        lower: p.c,
        upper: p.d,
    };
    if !finishing::is_usable(terms::small_size(), removes, laid) {
        return false;
    }
    bundle::finish(entries, laid.lower, p.e);
    bundle::finish(entries, laid.upper, p.e);
    nodes::unlock_both(nodes, laid.pred, laid.node, removes);
    true
}
