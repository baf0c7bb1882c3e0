// Streams that fail, disks that fail before a run, and streams that never fail.
use crate::program::{AMPLE, Case, RUN, SHOW, Streams, call_on, call_with, check, created, empty};
use crate::rows::{ONE_LOG, ONE_LOG_SCRIPT};
use sc_dev::{MemDisk, OpenGate, SureSink, SureSource};
use sc_types::NoMemory;
use std::alloc::Global;
use std::sync::Wait;
use std::test::Fail;
use std::thread::Threads;

/// A chart of one state.
const ONE_STATE: &str = r#"{"tag":"scxml","kids":[{"tag":"state"}]}"#;

const FIRST_READ_FAILS: Streams<'static> = Streams {
    failing_reads: &[1],
    ..AMPLE
};

const THIRD_READ_FAILS: Streams<'static> = Streams {
    most_read: 10,
    failing_reads: &[3],
    ..AMPLE
};

const FIRST_WRITE_FAILS: Streams<'static> = Streams {
    failing_writes: &[1],
    ..AMPLE
};

/// What is written before takes one byte.
const SECOND_WRITE_FAILS: Streams<'static> = Streams {
    most_written: 1,
    failing_writes: &[2],
    ..AMPLE
};

const ROOM_FOR_10: Streams<'static> = Streams {
    most_written: 3,
    room: 10,
    ..AMPLE
};

const ROOM_FOR_2: Streams<'static> = Streams { room: 2, ..AMPLE };

/// Calls over streams that fail, or that would where they were used.
const CASES: [Case<'static>; 12] = [
    Case {
        line: RUN,
        input: ONE_LOG_SCRIPT,
        streams: FIRST_READ_FAILS,
        status: 4,
        written: "read\n",
    },
    Case {
        line: RUN,
        input: ONE_LOG_SCRIPT,
        streams: THIRD_READ_FAILS,
        status: 4,
        written: "read\n",
    },
    Case {
        line: "check",
        input: ONE_STATE,
        streams: THIRD_READ_FAILS,
        status: 4,
        written: "read\n",
    },
    // Other words read nothing.
    Case {
        line: "walk",
        input: ONE_STATE,
        streams: FIRST_READ_FAILS,
        status: 1,
        written: "words\n",
    },
    Case {
        line: "show",
        input: ONE_STATE,
        streams: FIRST_READ_FAILS,
        status: 0,
        written: "open 0\nsessions 0\nclock 0 timers 0\nend shown\n",
    },
    Case {
        line: "gen 0 1",
        input: ONE_STATE,
        streams: FIRST_READ_FAILS,
        status: 0,
        written: "gen 0 1\nentries 19 steps 9 sum 1\nend quiet\n",
    },
    // A failed write leaves the first part of what is to be written.
    Case {
        line: RUN,
        input: ONE_LOG_SCRIPT,
        streams: FIRST_WRITE_FAILS,
        status: 5,
        written: "",
    },
    Case {
        line: RUN,
        input: ONE_LOG_SCRIPT,
        streams: SECOND_WRITE_FAILS,
        status: 5,
        written: "o",
    },
    Case {
        line: RUN,
        input: ONE_LOG_SCRIPT,
        streams: ROOM_FOR_10,
        status: 5,
        written: "open 0\n1 c",
    },
    Case {
        line: "check",
        input: ONE_STATE,
        streams: ROOM_FOR_2,
        status: 5,
        written: "ok",
    },
    // It is told before a fault of the words or of the script.
    Case {
        line: "",
        input: "",
        streams: SECOND_WRITE_FAILS,
        status: 5,
        written: "w",
    },
    Case {
        line: RUN,
        input: "no script",
        streams: SECOND_WRITE_FAILS,
        status: 5,
        written: "s",
    },
];

#[test]
fn a_failing_stream_is_told(rt: HostRuntime) -> Result<(), Fail> {
    for case in CASES {
        let disk = created(&rt, rt.alloc(), &[])?;
        check(&rt, rt.alloc(), disk, &[case])?;
    }
    Ok(())
}

const MADE: Case<'static> = Case {
    line: "init",
    input: "",
    streams: AMPLE,
    status: 0,
    written: "created\n",
};

/// A call that the disk fails.
fn failed(line: &str) -> Case<'_> {
    Case {
        line,
        input: ONE_LOG_SCRIPT,
        streams: AMPLE,
        status: 6,
        written: "disk\n",
    }
}

/// Making a journal takes 5 calls of the disk, and reading it 2.
#[test]
fn a_failing_disk_is_told_before_a_run(rt: HostRuntime) -> Result<(), Fail> {
    for failing in 1..8u64 {
        let disk = empty(rt.alloc(), &[failing])?;
        if failing <= 5 {
            check(&rt, rt.alloc(), disk, &[failed("init")])?;
        } else {
            check(&rt, rt.alloc(), disk, &[MADE, failed(RUN)])?;
        }
    }
    Ok(())
}

/// The status of a run over streams that never fail.
fn sure_status<R: Threads + Wait + Sync>(
    rt: &R,
    alloc: Global,
    disk: &mut MemDisk,
) -> Result<u8, NoMemory> {
    let mut source = SureSource::new(alloc, ONE_LOG_SCRIPT.as_bytes())?;
    let mut sink = SureSink::new();
    call_with(rt, alloc, RUN, &mut source, &mut sink, disk, &OpenGate)
}

/// Whether such a run ends well, and the journal holds all of it.
fn is_made_surely<R: Threads + Wait + Sync>(rt: &R, alloc: Global) -> Result<bool, NoMemory> {
    let mut disk = created(rt, alloc, &[])?;
    is_made_on(rt, alloc, &mut disk)
}

fn is_made_on<R: Threads + Wait + Sync>(
    rt: &R,
    alloc: Global,
    disk: &mut MemDisk,
) -> Result<bool, NoMemory> {
    let status = sure_status(rt, alloc, disk)?;
    let shown = call_on(rt, alloc, &SHOW, disk)?;
    let whole = ONE_LOG
        .shows
        .last()
        .map_or(b"".as_slice(), |show| show.as_bytes());
    Ok(status == 0 && shown.written() == whole)
}

#[test]
fn streams_that_never_fail_serve_a_whole_run(rt: HostRuntime) -> Result<(), Fail> {
    assert!(rt; is_made_surely(&rt, rt.alloc())?);
    Ok(())
}
