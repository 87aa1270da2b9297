//! Runs of `hamon`: what they write and tell, and how they end.
ghost use Rattle.std.specs.Prelude.{◌≤◌};

mod models;
mod replays;

use super::{Status, run};
use models::{CABIN, CHAIN, CLOSED, GROWING, LEVEL, NARROW, OPEN, SHARED, STEEP, TOLERANT, WIDE};
use mon_io::{MemShelf, MemSink, MemSource};
use std::alloc::{AllocError, Global};
use std::process::Abort;
use std::test::Fail;

/// What a run is given: its words, the text of the model `M`, the log, how many bytes a call moves at most, and the numbers of the
/// looks, the reads and the writes that fail.
#[derive(Clone, Copy)]
struct Given<'a> {
    words: &'a [&'a str],
    model: &'a str,
    log: &'a [u8],
    per_call: usize,
    looks: &'a [u64],
    reads: &'a [u64],
    writes: &'a [u64],
}

/// What came of it: the status, what was written and what was told.
type Wanted<'a> = (Status, &'a str, &'a str);

const CHECK: &[&str] = &["check", "M", "--runs", "none"];

const TWO_JUMPS: &[&str] = CHECK;

const ONE_JUMP: &[&str] = &["--jumps", "1", "--runs", "none", "check", "M"];

const THREE_JUMPS: &[&str] = &["check", "--jumps=3", "--runs=none", "M"];

const SIX_JUMPS: &[&str] = &["check", "M", "--jumps", "6", "--runs", "none"];

fn words_of(alloc: Global, words: &[&str]) -> Result<Vec<String>, AllocError> {
    let mut all = Vec::new(alloc);
    for word in words {
        all.push(String::from_str(alloc, word)?)?;
    }
    Ok(all)
}

fn shelf_of(alloc: Global, model: &str, looks: &[u64]) -> Result<MemShelf, AllocError> {
    let mut texts = Vec::new(alloc);
    texts.push((
        String::from_str(alloc, "M")?,
        model.as_bytes().to_vec(alloc)?,
    ))?;
    Ok(MemShelf::new(texts, looks.to_vec(alloc)?))
}

fn expect(
    rt: &impl Abort,
    alloc: Global,
    given: &Given<'_>,
    wanted: Wanted<'_>,
) -> Result<(), AllocError>
    requires { 1 ≤ given.now.per_call }
{
    let words = words_of(alloc, given.words)?;
    let mut shelf = shelf_of(alloc, given.model, given.looks)?;
    let log = given.log.to_vec(alloc)?;
    let mut log = MemSource::new(log, given.per_call, given.reads.to_vec(alloc)?);
    let mut out = MemSink::new(alloc, given.per_call, given.writes.to_vec(alloc)?);
    let mut diag = MemSink::new(alloc, given.per_call, Vec::new(alloc));
    let ended = run(alloc, &words, &mut shelf, &mut log, &mut out, &mut diag);
    let (status, written, told) = wanted;
    assert_eq!(rt; out.bytes(), written.as_bytes());
    assert_eq!(rt; diag.bytes(), told.as_bytes());
    assert_eq!(rt; ended, status);
    Ok(())
}

/// A run of the words on a model and a log, moving three bytes a call, without a fault.
fn expect_report(
    rt: &impl Abort,
    alloc: Global,
    words: &[&str],
    model: &str,
    log: &[u8],
    wanted: (Status, &str),
) -> Result<(), AllocError> {
    let given = Given {
        words,
        model,
        log,
        per_call: 3,
        looks: &[],
        reads: &[],
        writes: &[],
    };
    let (status, written) = wanted;
    expect(rt, alloc, &given, (status, written, ""))
}

/// Words, a log of the level, how the run ends and what it writes.
const LEVEL_RUNS: &[(&[&str], &str, Status, &str)] = &[
    // the violation lies between two samples, and takes two jumps
    (
        TWO_JUMPS,
        "time,x\n0,0\n4,6\n10,6\n",
        Status::Alarm,
        "2,safe\n3,safe\n4,alarm\n",
    ),
    (
        ONE_JUMP,
        "time,x\n0,0\n4,6\n10,6\n",
        Status::Clean,
        "2,safe\n3,safe\n4,safe\n",
    ),
    // the slope is too steep
    (
        TWO_JUMPS,
        "time,x\n0,0\n1,3\n",
        Status::Clean,
        "2,safe\n3,impossible\n",
    ),
    // the jump is at the sample's time
    (
        ONE_JUMP,
        "time,x\n0,0\n4,8\n",
        Status::Alarm,
        "2,safe\n3,alarm\n",
    ),
    (TWO_JUMPS, "time,x\n", Status::Clean, ""),
    (TWO_JUMPS, "", Status::Clean, ""),
    // the first gap lies before the first sample
    (TWO_JUMPS, "time,x\n4,8\n", Status::Alarm, "2,alarm\n"),
    // a value that is not observed
    (
        TWO_JUMPS,
        "time,x\n0,0\n3,\n5,9\n",
        Status::Alarm,
        "2,safe\n3,safe\n4,alarm\n",
    ),
    // a refused time does not become the last one
    (
        TWO_JUMPS,
        "time,x\n0,0\n4,6\n3,6\n4,6\n10,6\n",
        Status::Alarm,
        "2,safe\n3,safe\n4,refused,time\n5,refused,time\n6,alarm\n",
    ),
    (
        TWO_JUMPS,
        "time,x\n0,0\n1,3\n2,0\n3,0\n",
        Status::Clean,
        "2,safe\n3,impossible\n4,impossible\n5,impossible\n",
    ),
    (
        TWO_JUMPS,
        "time,x\n0,-0.0\n1e-05,0.00001\n1,1e15\n1,nan\n1, 1\n",
        Status::Clean,
        "2,safe\n3,safe\n4,refused,number\n5,refused,number\n6,safe\n",
    ),
];

#[test]
fn levels_are_judged(rt: HostRuntime) -> Result<(), Fail> {
    for (words, log, status, written) in LEVEL_RUNS {
        expect_report(
            &rt,
            rt.alloc(),
            words,
            LEVEL,
            log.as_bytes(),
            (*status, written),
        )?;
    }
    Ok(())
}

/// Words, a model, a log, how the run ends and what it writes.
const OTHER_RUNS: &[(&[&str], &str, &str, Status, &str)] = &[
    (
        TWO_JUMPS,
        STEEP,
        "time,x\n1,1\n",
        Status::Alarm,
        "2,alarm\n",
    ),
    (
        THREE_JUMPS,
        CHAIN,
        "time,x\n0,0\n",
        Status::Alarm,
        "2,alarm\n",
    ),
    (TWO_JUMPS, CHAIN, "time,x\n0,0\n", Status::Clean, "2,safe\n"),
    // a state that an earlier one includes is dropped
    (
        ONE_JUMP,
        WIDE,
        "time,x\n1,\n2,1\n",
        Status::Alarm,
        "2,alarm\n3,alarm\n",
    ),
    // a later one that includes an earlier one is not
    (ONE_JUMP, NARROW, "time,x\n1,\n", Status::Alarm, "2,alarm\n"),
    // 999999999^5 is past 128 bits; after an overflow there is nothing else
    (
        SIX_JUMPS,
        GROWING,
        "time,x\n0,\n1,1\n",
        Status::Overflow,
        "2,overflow\n3,overflow\n",
    ),
    // two slopes that share a bound
    (
        TWO_JUMPS,
        SHARED,
        "time,a,b\n2,1,\n3,2,0\n4,,3\n",
        Status::Clean,
        "2,safe\n3,safe\n4,impossible\n",
    ),
    (
        TWO_JUMPS,
        SHARED,
        "time,a,b\n2,1.5,\n3,1.5,1.6\n",
        Status::Clean,
        "2,safe\n3,impossible\n",
    ),
    (
        TWO_JUMPS,
        SHARED,
        "time,b,a\n2,,1.5\n3,1.5,1.5\n",
        Status::Clean,
        "2,safe\n3,safe\n",
    ),
    // bounds that are not reached, and one that is
    (TWO_JUMPS, OPEN, "time,x\n0,\n", Status::Alarm, "2,alarm\n"),
    (
        TWO_JUMPS,
        OPEN,
        "time,x\n0,1\n",
        Status::Clean,
        "2,impossible\n",
    ),
    (
        TWO_JUMPS,
        CLOSED,
        "time,x\n0,\n",
        Status::Alarm,
        "2,alarm\n",
    ),
    // a tolerance of 1/2
    (
        TWO_JUMPS,
        TOLERANT,
        "time,x\n0,0.5\n1,3\n",
        Status::Clean,
        "2,safe\n3,impossible\n",
    ),
    (
        TWO_JUMPS,
        TOLERANT,
        "time,x\n0,0.5\n1,2.5\n",
        Status::Clean,
        "2,safe\n3,safe\n",
    ),
];

#[test]
fn other_models_are_judged(rt: HostRuntime) -> Result<(), Fail> {
    for (words, model, log, status, written) in OTHER_RUNS {
        expect_report(
            &rt,
            rt.alloc(),
            words,
            model,
            log.as_bytes(),
            (*status, written),
        )?;
    }
    Ok(())
}

/// A log of the level with lines that are refused, how the run ends and what it writes.
const REFUSED_LINES: &[(&[u8], Status, &str)] = &[
    (
        b"time,x\n\xff\n0,0\n",
        Status::Clean,
        "2,refused,text\n3,safe\n",
    ),
    (
        b"time,x\n0,1000000000000000\n0,999999999999999\n",
        Status::Clean,
        "2,refused,number\n3,impossible\n",
    ),
    (
        b"time,x\n0,0\n999999999999999,0\n",
        Status::Alarm,
        "2,safe\n3,alarm\n",
    ),
    // after a refused header no session is open
    (
        b"\nTime,x\n0,0\ntime,x\n0,\r0\n",
        Status::Clean,
        "2,refused,fields\n3,refused,unknown\n4,refused,number\n5,refused,text\n",
    ),
    (
        b"time,y\n0,0\n",
        Status::Clean,
        "1,refused,column\n2,refused,unknown\n",
    ),
    (
        b"time,x,x\n0,0\n",
        Status::Clean,
        "1,refused,column\n2,refused,unknown\n",
    ),
    (
        b"time,x\n0\n0,0,0\n-1,0\n0,0\n",
        Status::Clean,
        "2,refused,cells\n3,refused,cells\n4,refused,time\n5,safe\n",
    ),
    // a mark before the first line, a carriage return before a line feed, and no line feed at the end
    (
        b"\xef\xbb\xbftime,x\r\n\r\n0,0\r\n1,1",
        Status::Clean,
        "3,safe\n4,safe\n",
    ),
];

#[test]
fn lines_are_refused(rt: HostRuntime) -> Result<(), Fail> {
    for (log, status, written) in REFUSED_LINES {
        expect_report(&rt, rt.alloc(), CHECK, LEVEL, log, (*status, written))?;
    }
    Ok(())
}

/// A log of one sample, whose line has so many zeros after its comma.
fn log_of_zeros(alloc: Global, zeros: usize) -> Result<Vec<u8>, AllocError> {
    let mut log = b"time,x\n0,".to_vec(alloc)?;
    for _ in 0..zeros {
        log.push(b'0')?;
    }
    log.push(b'\n')?;
    Ok(log)
}

#[test]
fn long_lines_are_refused(rt: HostRuntime) -> Result<(), Fail> {
    let short = log_of_zeros(rt.alloc(), 4094)?;
    let long = log_of_zeros(rt.alloc(), 4095)?;
    let (safe, refused) = ("2,safe\n", "2,refused,long\n");
    expect_report(&rt, rt.alloc(), CHECK, LEVEL, &short, (Status::Clean, safe))?;
    expect_report(
        &rt,
        rt.alloc(),
        CHECK,
        LEVEL,
        &long,
        (Status::Clean, refused),
    )?;
    Ok(())
}

/// The row of a cabin after `i` steps of 0.02.
fn cabin_row(alloc: Global, i: u32) -> Result<String, AllocError>
    requires { i ≤ 999 }
{
    let (whole, hundredths) = (i / 50, i % 50 * 2);
    let warmer = i * 150;
    if i == 0 {
        return String::from_str(alloc, "0.00,20.000000,50.000000\n");
    }
    let lower = 1_000_000 - i * 100;
    format!(in alloc; "{whole}.{hundredths:02},20.{warmer:06},49.{lower:06}\n")
}

#[test]
fn many_samples_are_judged(rt: HostRuntime) -> Result<(), Fail> {
    let alloc = rt.alloc();
    let mut log = String::from_str(alloc, "time,temp,level\n")?;
    let mut written = String::new(alloc);
    for i in 0..1000 {
        let row = cabin_row(alloc, i)?;
        log.push_str(&row)?;
        let number = i + 2;
        let line = format!(in alloc; "{number},safe\n")?;
        written.push_str(&line)?;
    }
    let wanted = (Status::Clean, written.as_str());
    expect_report(&rt, alloc, CHECK, CABIN, log.as_bytes(), wanted)?;
    Ok(())
}

/// Rows of many sessions, each once in each way that it can be taken or refused.
const WATCHED: &str =
    "open,a,T,x\nopen,b,T,x\nat,a,0,0\nat,b,0,0\nat,a,4,6\nat,b,1,3\nat,a,10,6\nopen,a,T,x\nclose,b\nat,b,2,3\nclose,b\nopen,b,T\nat,b,1,\nat,c,1,1\nopen,c,U\nopen,c,T,y\nflush\nflush,1\nat,a,10,6\nat,a,x,6\n";

const WATCHED_REPORT: &str =
    "3,a,safe\n4,b,safe\n5,a,safe\n6,b,impossible\n7,a,alarm\n8,refused,again\n10,refused,unknown\n11,refused,unknown\n13,refused,cells\n14,refused,unknown\n15,refused,unknown\n16,refused,column\n18,refused,fields\n19,refused,time\n20,refused,number\n";

#[test]
fn many_sessions_are_watched(rt: HostRuntime) -> Result<(), Fail> {
    let wanted = (Status::Alarm, WATCHED_REPORT);
    expect_report(
        &rt,
        rt.alloc(),
        &["watch", "M", "--runs", "none"],
        LEVEL,
        WATCHED.as_bytes(),
        wanted,
    )?;
    Ok(())
}

/// Words that are refused.
const REFUSED_WORDS: &[&[&str]] = &[
    &[],
    &["check"],
    &["check", "M", "M"],
    &["watch"],
    &["watch", "M", "M"],
    &["replay", "M"],
    &["replay", "M", "M", "M"],
    &["--jumps", "7", "check", "M"],
    &["--jumps=02", "check", "M"],
    &["check", "M", "--runs", "most"],
    &["check", "-M"],
];

#[test]
fn words_are_refused(rt: HostRuntime) -> Result<(), Fail> {
    for words in REFUSED_WORDS {
        let given = Given {
            words,
            model: LEVEL,
            log: b"time,x\n0,0\n",
            per_call: 4,
            looks: &[],
            reads: &[],
            writes: &[],
        };
        expect(
            &rt,
            rt.alloc(),
            &given,
            (Status::Words, "", "hamon: words\n"),
        )?;
    }
    Ok(())
}

/// A text that says no automata, and what is told of it.
const REFUSED_MODELS: &[(&str, &str)] = &[
    (models::UNKNOWN, "hamon: model: 11 unknown hot\n"),
    ("lha 1\nautomaton T\nvar", "hamon: model: 3:4 syntax\n"),
    (models::EMPTY_BOX, "hamon: model: 7 box x\n"),
    (models::ENDLESS, "hamon: model: 13:1 syntax\n"),
    (models::CUT_SHORT, "hamon: model: 12:20 syntax\n"),
    (models::OPEN_IN_ONE, "hamon: model: 5:8 syntax\n"),
    ("", "hamon: model: 1:1 syntax\n"),
];

#[test]
fn models_are_refused(rt: HostRuntime) -> Result<(), Fail> {
    for (model, told) in REFUSED_MODELS {
        let given = Given {
            words: CHECK,
            model,
            log: b"time,x\n0,0\n",
            per_call: 4,
            looks: &[],
            reads: &[],
            writes: &[],
        };
        expect(&rt, rt.alloc(), &given, (Status::Model, "", told))?;
    }
    Ok(())
}

#[test]
fn long_models_are_refused(rt: HostRuntime) -> Result<(), Fail> {
    let alloc = rt.alloc();
    let mut model = String::from_str(alloc, LEVEL)?;
    for _ in 0..16384 {
        model.push_str("################################################################")?;
    }
    let given = Given {
        words: CHECK,
        model: &model,
        log: b"time,x\n0,0\n",
        per_call: 8192,
        looks: &[],
        reads: &[],
        writes: &[],
    };
    expect(
        &rt,
        alloc,
        &given,
        (Status::Model, "", "hamon: model: long\n"),
    )?;
    Ok(())
}

/// A read and a write that failed, with what is told of them.
const READ: (Status, &str) = (Status::ReadFault, "hamon: read fault\n");

const WRITE: (Status, &str) = (Status::WriteFault, "hamon: write fault\n");

/// The numbers of the looks, reads and writes that fail, how the run ends, and what it writes.
const FAULTS: &[(&[u64], &[u64], &[u64], (Status, &str), &str)] = &[
    (&[1], &[], &[], READ, ""),
    // the first read, the line feed of line 2, the byte after it, one inside line 3, and the end
    (&[], &[1], &[], READ, ""),
    (&[], &[11], &[], READ, ""),
    (&[], &[12], &[], READ, "2,safe\n"),
    (&[], &[14], &[], READ, "2,safe\n"),
    (&[], &[21], &[], READ, "2,safe\n3,safe\n4,alarm\n"),
    (&[], &[], &[1], WRITE, ""),
    (&[], &[], &[3], WRITE, "2,"),
];

#[test]
fn faults_end_a_run(rt: HostRuntime) -> Result<(), Fail> {
    for (looks, reads, writes, (status, told), written) in FAULTS {
        let given = Given {
            words: CHECK,
            model: LEVEL,
            log: b"time,x\n0,0\n4,6\n10,6\n",
            per_call: 1,
            looks,
            reads,
            writes,
        };
        expect(&rt, rt.alloc(), &given, (*status, written, told))?;
    }
    Ok(())
}

#[test]
fn a_cut_line_is_not_reported(rt: HostRuntime) -> Result<(), Fail> {
    let given = Given {
        words: CHECK,
        model: LEVEL,
        log: b"time,x\n0,0\n4,6\n10,6",
        per_call: 1,
        looks: &[],
        reads: &[20],
        writes: &[],
    };
    let wanted = (Status::ReadFault, "2,safe\n3,safe\n", "hamon: read fault\n");
    expect(&rt, rt.alloc(), &given, wanted)?;
    Ok(())
}
