//! Runs that are replayed on a log.
ghost use Rattle.std.specs.Prelude.{◌≤◌};

use super::models::{GROWING, LEVEL, TOLERANT};
use super::{Status, run, words_of};
use mon_io::{MemShelf, MemSink, MemSource};
use std::alloc::{AllocError, Global};
use std::process::Abort;
use std::test::Fail;

/// A model, a log and the text of a run, how many bytes a call moves at most, and the numbers of the looks, the reads and the writes that
/// fail.
#[derive(Clone, Copy)]
struct Given<'a> {
    words: &'a [&'a str],
    model: &'a str,
    log: &'a str,
    run: &'a str,
    per_call: usize,
    looks: &'a [u64],
    reads: &'a [u64],
    writes: &'a [u64],
}

const REPLAY: &[&str] = &["replay", "M", "L"];

const NO_JUMP: &[&str] = &["--jumps", "0", "replay", "M", "L"];

fn shelf_of(alloc: Global, given: &Given<'_>) -> Result<MemShelf, AllocError> {
    let mut texts = Vec::new(alloc);
    for (name, text) in [("M", given.model), ("L", given.log)] {
        texts.push((
            String::from_str(alloc, name)?,
            text.as_bytes().to_vec(alloc)?,
        ))?;
    }
    Ok(MemShelf::new(texts, given.looks.to_vec(alloc)?))
}

/// The status, what was written and what was told.
fn expect(
    rt: &impl Abort,
    alloc: Global,
    given: &Given<'_>,
    wanted: (Status, &str, &str),
) -> Result<(), AllocError>
    requires { 1 ≤ given.now.per_call }
{
    let words = words_of(alloc, given.words)?;
    let mut shelf = shelf_of(alloc, given)?;
    let text = given.run.as_bytes().to_vec(alloc)?;
    let mut text = MemSource::new(text, given.per_call, given.reads.to_vec(alloc)?);
    let mut out = MemSink::new(alloc, given.per_call, given.writes.to_vec(alloc)?);
    let mut diag = MemSink::new(alloc, given.per_call, Vec::new(alloc));
    let ended = run(alloc, &words, &mut shelf, &mut text, &mut out, &mut diag);
    let (status, written, told) = wanted;
    assert_eq!(rt; out.bytes(), written.as_bytes());
    assert_eq!(rt; diag.bytes(), told.as_bytes());
    assert_eq!(rt; ended, status);
    Ok(())
}

const LOG: &str = "time,x\n0,0\n4,6\n10,6\n";

/// The same samples among lines that are refused.
const LINES_REFUSED: &str = "\ntime,x\n0,0\n4,6\n4,6\n5\nsix,6\n10,6\n9,1\n";

const RUN: &str =
    "run 3\ngap 1 0\nat 0\nstay 0\nat 0\ngap 1 0\nat 0\nstay 4\nat 6\ngap 1 0\nat 6\nstay 4\nat 8\njump 0\nat 8\nstay 0\nat 8\njump 1\nat 8\nstay 2\nat 6\n";

const RUN_IN_A_REPORT: &str =
    "+ run 3\n+ gap 1 0\n+ at 0\n+ stay 0\n+ at 0\n+ gap 1 0\n+ at 0\n+ stay 4\n+ at 6\n+ gap 1 0\n+ at 6\n+ stay 4\n+ at 8\n+ jump 0\n+ at 8\n+ stay 0\n+ at 8\n+ jump 1\n+ at 8\n+ stay 2\n+ at 6\n";

/// The last leg lasts longer.
const LONGER: &str =
    "run 3\ngap 1 0\nat 0\nstay 0\nat 0\ngap 1 0\nat 0\nstay 4\nat 6\ngap 1 0\nat 6\nstay 4\nat 8\njump 0\nat 8\nstay 0\nat 8\njump 1\nat 8\nstay 3\nat 6\n";

/// The first two gaps.
const TWO_GAPS: &str = "run 2\ngap 1 0\nat 0\nstay 0\nat 0\ngap 1 0\nat 0\nstay 4\nat 6\n";

/// A gap more than samples.
const FOUR_GAPS: &str =
    "run 4\ngap 1 0\nat 0\nstay 0\nat 0\ngap 1 0\nat 0\nstay 4\nat 6\ngap 1 0\nat 6\nstay 6\nat 6\ngap 1 0\nat 6\nstay 1\nat 6\n";

/// A number of 128 bits, and one more.
const MANY_TIMES: &str =
    "run 1\ngap 170141183460469231731687303715884105728 0\nat 0\nstay 0\nat 0\n";

/// Numbers whose sum passes 128 bits.
const LONG_LEG: &str =
    "run 1\ngap 170141183460469231731687303715884105727 0\nat 170141183460469231731687303715884105727\nstay 0\nat 170141183460469231731687303715884105727\njump 0\nat 0\nstay 0\nat 0\n";

/// Words, a log of the level, the text of a run, how the replay ends and what it writes.
const REPLAYS: &[(&[&str], &str, &str, Status, &str)] = &[
    (REPLAY, LOG, RUN, Status::Alarm, "replay,alarm\n"),
    (
        REPLAY,
        LOG,
        RUN_IN_A_REPORT,
        Status::Alarm,
        "replay,alarm\n",
    ),
    (REPLAY, LINES_REFUSED, RUN, Status::Alarm, "replay,alarm\n"),
    (REPLAY, LOG, TWO_GAPS, Status::Clean, "replay,safe\n"),
    (NO_JUMP, LOG, TWO_GAPS, Status::Clean, "replay,safe\n"),
    (REPLAY, LOG, LONGER, Status::NotARun, "replay,no,3\n"),
    // two jumps in a gap are too many
    (NO_JUMP, LOG, RUN, Status::NotARun, "replay,no,3\n"),
    (REPLAY, LOG, FOUR_GAPS, Status::NotARun, "replay,no,0\n"),
    // no session is open
    (
        REPLAY,
        "x,time\n0,0\n",
        TWO_GAPS,
        Status::NotARun,
        "replay,no,0\n",
    ),
    (REPLAY, "", RUN, Status::NotARun, "replay,no,0\n"),
    (REPLAY, LOG, "", Status::NotARun, "replay,text,1\n"),
    (REPLAY, LOG, "run 03\n", Status::NotARun, "replay,text,1\n"),
    (
        REPLAY,
        LOG,
        "run 1\ngap 1 0",
        Status::NotARun,
        "replay,text,2\n",
    ),
    // one `+ ` alone is dropped
    (
        REPLAY,
        LOG,
        "+ + run 1\n",
        Status::NotARun,
        "replay,text,1\n",
    ),
    (REPLAY, LOG, MANY_TIMES, Status::NotARun, "replay,range,2\n"),
    (
        REPLAY,
        LOG,
        "run 4294967296\n",
        Status::NotARun,
        "replay,range,1\n",
    ),
];

#[test]
fn runs_are_replayed(rt: HostRuntime) -> Result<(), Fail> {
    for (words, log, text, status, written) in REPLAYS {
        let given = Given {
            words,
            model: LEVEL,
            log,
            run: text,
            per_call: 3,
            looks: &[],
            reads: &[],
            writes: &[],
        };
        expect(&rt, rt.alloc(), &given, (*status, written, ""))?;
    }
    Ok(())
}

/// A model, a log, the text of a run, how the replay ends and what it writes.
const OTHER_REPLAYS: &[(&str, &str, &str, Status, &str)] = &[
    // a tolerance of 1/2
    (
        TOLERANT,
        "time,x\n4,7.5\n",
        "run 1\ngap 1 0\nat 0\nstay 4\nat 8\njump 0\nat 8\nstay 0\nat 8\n",
        Status::Alarm,
        "replay,alarm\n",
    ),
    (
        GROWING,
        "time,x\n0,\n",
        LONG_LEG,
        Status::Overflow,
        "replay,passes,1\n",
    ),
];

#[test]
fn runs_of_other_models_are_replayed(rt: HostRuntime) -> Result<(), Fail> {
    for (model, log, text, status, written) in OTHER_REPLAYS {
        let given = Given {
            words: REPLAY,
            model,
            log,
            run: text,
            per_call: 64,
            looks: &[],
            reads: &[],
            writes: &[],
        };
        expect(&rt, rt.alloc(), &given, (*status, written, ""))?;
    }
    Ok(())
}

/// The numbers of the looks, reads and writes that fail, how the replay ends, what it writes and what is told.
const REPLAY_FAULTS: &[(&[u64], &[u64], &[u64], Status, &str, &str)] = &[
    (&[1], &[], &[], Status::ReadFault, "", "hamon: read fault\n"),
    (&[2], &[], &[], Status::ReadFault, "", "hamon: read fault\n"),
    (&[], &[1], &[], Status::ReadFault, "", "hamon: read fault\n"),
    (&[], &[3], &[], Status::ReadFault, "", "hamon: read fault\n"),
    (
        &[],
        &[],
        &[1],
        Status::WriteFault,
        "",
        "hamon: write fault\n",
    ),
    (
        &[],
        &[],
        &[2],
        Status::WriteFault,
        "replay,a",
        "hamon: write fault\n",
    ),
];

#[test]
fn faults_end_a_replay(rt: HostRuntime) -> Result<(), Fail> {
    for (looks, reads, writes, status, written, told) in REPLAY_FAULTS {
        let given = Given {
            words: REPLAY,
            model: LEVEL,
            log: LOG,
            run: RUN,
            per_call: 8,
            looks,
            reads,
            writes,
        };
        expect(&rt, rt.alloc(), &given, (*status, written, told))?;
    }
    Ok(())
}
