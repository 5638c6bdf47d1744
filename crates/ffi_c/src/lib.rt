// The calls of crate ffi, exported for C: the same names, contracts and refusals, and nothing besides. The archive is
// target/staticlib/libffi.a (.ci/library makes it); include/ravencrumb.h declares the calls.
// In order: fresh; start; many steps; one step; writing and reading a listing.
// Not here: what the calls do (crate ffi) and what they mean (crate register). Assumes nothing.
#![tactic(auto)]

ghost use Rattle.std.specs.Prelude.{◌≡◌};
ghost use Rattle.terms.specs.Terms.{small};
ghost use Rattle.listing.specs.Listing.{key_room};
ghost use Rattle.exchange.specs.Exchange.{left, wrote, write_call, read_call};
ghost use Rattle.calling.specs.Calling.{strode};
ghost use Rattle.stepping.specs.Stepping.{heard, step_call};
ghost use Rattle.ffi.specs.Ffi.{cleared, fresh_call, start_call, steps_call};

#[unsafe(no_mangle)]
pub extern "C" fn ravencrumb_fresh(nodes: &mut [u32], entries: &mut [u32], words: &mut [u32]) -> u32
    ensures { cleared nodes.new entries.new words.new result
        ≡ fresh_call small nodes.old entries.old words.old }
{
    ffi::ravencrumb_fresh(nodes, entries, words)
}

#[unsafe(no_mangle)]
pub extern "C" fn ravencrumb_start(
    nodes: &[u32],
    entries: &[u32],
    words: &mut [u32],
    answer: &mut [u32],
    who: u32,
    kind: u32,
    first: u32,
    second: u32,
) -> u32
    ensures { heard words.new answer.new result
        ≡ start_call small nodes.now entries.now words.old answer.old
        who kind first second }
{
    ffi::ravencrumb_start(nodes, entries, words, answer, who, kind, first, second)
}

#[unsafe(no_mangle)]
pub extern "C" fn ravencrumb_steps(
    nodes: &mut [u32],
    entries: &mut [u32],
    words: &mut [u32],
    pairs: &mut [u32],
    answer: &mut [u32],
    who: u32,
    limit: u32,
) -> u32
    ensures { strode nodes.new entries.new words.new pairs.new
        answer.new result
        ≡ steps_call small nodes.old entries.old words.old pairs.old
        answer.old who limit }
{
    ffi::ravencrumb_steps(nodes, entries, words, pairs, answer, who, limit)
}

#[unsafe(no_mangle)]
pub extern "C" fn ravencrumb_step(
    nodes: &mut [u32],
    entries: &mut [u32],
    words: &mut [u32],
    answer: &mut [u32],
    who: u32,
) -> u32
    ensures { left nodes.new entries.new words.new answer.new result
        ≡ step_call small nodes.old entries.old words.old answer.old
        who }
{
    ffi::ravencrumb_step(nodes, entries, words, answer, who)
}

#[unsafe(no_mangle)]
pub extern "C" fn ravencrumb_write(
    stamp: u32,
    keys: &[u32],
    values: &[u32],
    out: &mut [u8],
    answer: &mut [u32],
) -> u32
    ensures { wrote out.new answer.new result
        ≡ write_call key_room stamp keys.now values.now out.old
        answer.old }
{
    ffi::ravencrumb_write(stamp, keys, values, out, answer)
}

#[unsafe(no_mangle)]
pub extern "C" fn ravencrumb_read(
    input: &[u8],
    nodes: &mut [u32],
    entries: &mut [u32],
    words: &mut [u32],
    answer: &mut [u32],
) -> u32
    ensures { left nodes.new entries.new words.new answer.new result
        ≡ read_call small input.now nodes.old entries.old words.old
        answer.old }
{
    ffi::ravencrumb_read(input, nodes, entries, words, answer)
}
