use std::alloc::Global;
use std::io;
use std::io::{ErrorKind, Read, Write};
use vecscript::script::script;

const EMPTY_LISTS: &str = "main len=0 cap=0:\nside len=0 cap=0:\n";

const PUSHED_SEVEN: &str = "done\nmain len=1 cap=4: 7\nside len=0 cap=0:\n";

// Scripts, and what they print.
const GOOD_SCRIPTS: [(&[u8], &str); 29] = [
    (
        b"push 1\npush 2\npop\npop\npop\n",
        "done\ndone\nitem 2\nitem 1\nnone\nmain len=0 cap=4:\nside len=0 cap=0:\n",
    ),
    (
        b"push 1\npush 2\npush 3\npush 4\npush 5\n",
        "done\ndone\ndone\ndone\ndone\nmain len=5 cap=8: 1 2 3 4 5\nside len=0 cap=0:\n",
    ),
    (
        b"push 4294967295\n",
        "done\nmain len=1 cap=4: 4294967295\nside len=0 cap=0:\n",
    ),
    (b"", EMPTY_LISTS),
    (b"\n \t\r\n\n", EMPTY_LISTS),
    (b"push 007\n", PUSHED_SEVEN),
    (b"push 007", PUSHED_SEVEN),
    (b"\t push \t 7  \n", PUSHED_SEVEN),
    (b"\r\npush 7\r\n", PUSHED_SEVEN),
    (
        b"push 1\npush 2\npush 3\ninsert 1 9\nswap_remove 0\nwithin 7\npop\n",
        "done\ndone\ndone\ndone\nitem 1\ndone\nitem 7\nmain len=3 cap=4: 3 9 2\n\
            side len=0 cap=0:\n",
    ),
    (
        b"push 3\npush 9\npush 2\nwithin 4\ninsert 0 5\n",
        "done\ndone\ndone\ndone\ndone\nmain len=5 cap=8: 5 3 9 2 4\nside len=0 cap=0:\n",
    ),
    (
        b"reserve 5\npush 1\nshrink_to 3\nreserve_exact 3\nwithin 9\nclear\nshrink_to 0\n\
            remove 0\n",
        "done\ndone\ndone\ndone\ndone\ndone\ndone\nrange\nmain len=0 cap=0:\nside len=0 cap=0:\n",
    ),
    (
        b"push 1\nreserve 18446744073709551615\n",
        "done\nrefused capacity\nmain len=1 cap=4: 1\nside len=0 cap=0:\n",
    ),
    (
        b"within 1\ninsert 1 2\ntruncate 0\nswap_remove 0\n",
        "back 1\nrange\ndone\nrange\nmain len=0 cap=0:\nside len=0 cap=0:\n",
    ),
    (
        b"reserve_exact 3\ninsert 0 1\ninsert 0 2\nremove 1\ntruncate 1\nshrink_to 2\n",
        "done\ndone\ndone\nitem 1\ndone\ndone\nmain len=1 cap=2: 2\nside len=0 cap=0:\n",
    ),
    (
        b"extend 0 1 2\nappend\nsplit_off 1\nappend\nresize 4 7\nextend_from_within 1 3\n",
        "done\ndone\ndone\ndone\ndone\ndone\nmain len=6 cap=8: 1 2 7 7 2 7\nside len=0 cap=1:\n",
    ),
    (
        b"extend 18446744073709551615 5\n",
        "refused capacity\nmain len=0 cap=0:\nside len=0 cap=0:\n",
    ),
    (
        b"extend -\nextend - 1 2 3 4 5\nextend 0 007\n",
        "done\ndone\ndone\nmain len=6 cap=10: 1 2 3 4 5 7\nside len=0 cap=0:\n",
    ),
    (
        b"split_off 1\nextend_from_within 0 1\nextend_from_within 1 0\nappend\n",
        "range\nrange\nrange\ndone\nmain len=0 cap=0:\nside len=0 cap=0:\n",
    ),
    (
        b"extend - 2 4 4 5 4 4\ndedup\nretain\n",
        "done\ndone\ndone\nmain len=3 cap=6: 2 4 4\nside len=0 cap=0:\n",
    ),
    (
        b"extend - 0 1 2 3 4 5\ndrain 1 4 1 1 keep\ndrain 0 2 0 1 drop\n",
        "done\ndone\ndone\nmain len=2 cap=6: 4 5\nside len=3 cap=4: 1 3 2\n",
    ),
    (
        b"extend - 0 1 2 3 4 5\ndrain 1 4 1 1 keep\ndrain 0 2 0 1 drop\ndrain 0 2 9 9 drop\n\
            drain 3 2 0 0 keep\n",
        "done\ndone\ndone\ndone\nrange\nmain len=0 cap=6:\nside len=5 cap=8: 1 3 2 4 5\n",
    ),
    (
        b"extend - 1 2 3 4 5 6\nextract 1 6 2\nextract 4 9 1\n",
        "done\ndone\nrange\nmain len=4 cap=6: 1 3 5 6\nside len=2 cap=4: 2 4\n",
    ),
    (
        b"sparing\nextend 0 1 2 3 4 5\n",
        "done\nmain len=5 cap=6: 1 2 3 4 5\nside len=0 cap=0:\n",
    ),
    (
        b"\n\t\r\n  sparing\t\r\nextend 0 1 2 3 4 5\nsplit_off 5\nextend 0 1 2\nappend\npush 9\n",
        "done\ndone\ndone\ndone\ndone\nmain len=8 cap=9: 1 2 3 4 5 1 2 9\nside len=0 cap=0:\n",
    ),
    (b"\nsparing", EMPTY_LISTS),
    (
        b"extend - 1 2 3\nsplice 1 2 18446744073709551615 8 9\n",
        "done\nrefused capacity\nmain len=3 cap=4: 1 8 3\nside len=0 cap=0:\n",
    ),
    (
        b"extend - 0 1 2 3 4 5\ndrain 1 4 1 1 keep\nsplice 1 2 - 7 8 9\nremove 9\nappend\n\
            retain\nshrink_to 1\n",
        "done\ndone\ndone\nrange\ndone\ndone\ndone\nmain len=3 cap=3: 0 8 4\nside len=0 cap=4:\n",
    ),
    (
        b"extend - 0 1 2 3 4 5\ndrain 1 4 1 1 keep\nsplice 1 2 - 7 8 9\nremove 9\nappend\n\
            retain\nshrink_to 1\nsplit_off 1\n",
        "done\ndone\ndone\nrange\ndone\ndone\ndone\ndone\nmain len=1 cap=3: 0\n\
            side len=2 cap=2: 8 4\n",
    ),
];

// Scripts, and the number of the first bad line.
const BAD_SCRIPTS: [(&[u8], u32); 35] = [
    (b"sparing\nsparing\n", 2),
    (b"push 1\nsparing\n", 2),
    (b"\nsparing 1\n", 2),
    (b"sparing\n\npush\n", 3),
    (b"Sparing\n", 1),
    (b"extract 0 1\n", 1),
    (b"splice 0 0\n", 1),
    (b"splice 0 - 1\n", 1),
    (b"splice 0 0 - x\n", 1),
    (b"extend\n", 1),
    (b"extend 1 -\n", 1),
    (b"extend -1 2\n", 1),
    (b"extend - 1 2 x 3\n", 1),
    (b"push 1\ninsert 0\n", 2),
    (b"insert 0 1 2\n", 1),
    (b"insert 0 4294967296\n", 1),
    (b"remove 18446744073709551616\n", 1),
    (b"clear 1\n", 1),
    (b"push 1\npush\n", 2),
    (b"\npop x\n", 2),
    (b"pop x\npush\n", 1),
    (b"push 1 2\n", 1),
    (b"push 7\r\r\n", 1),
    (b"push 7\r", 1),
    (b"pop\n\r", 2),
    (b"\xff", 1),
    (b"pop\npo\xffp\n", 2),
    (b"push \xff\n", 1),
    (b"push 4294967296\n", 1),
    (b"PUSH 1\n", 1),
    (b"push -1\n", 1),
    (b"push +1\n", 1),
    (b"push 0x1\n", 1),
    (b"push\x0b1\n", 1),
    (b"push1\n", 1),
];

// Returns the exit status of a script, for a reader, a writer and one more for the faults.
fn status_of<R: Read, W: Write, F: Write>(
    alloc: Global,
    input: &mut R,
    output: &mut W,
    reported: &mut F,
) -> u8 {
    script(alloc, input, output, reported)
}

// Returns what a script reports of faults, and its exit status.
fn reported_by<R: Read, W: Write>(alloc: Global, input: &mut R, output: &mut W) -> (Vec<u8>, u8) {
    let mut reported = Vec::new(alloc);
    let status = status_of(alloc, input, output, &mut reported);
    (reported, status)
}

// Returns whether a script prints this, reports these faults, and returns this status.
fn has_outcome(alloc: Global, mut input: &[u8], output: &[u8], faults: &[u8], status: u8) -> bool {
    let mut written = Vec::new(alloc);
    let (reported, code) = reported_by(alloc, &mut input, &mut written);
    written.as_slice() == output && reported.as_slice() == faults && code == status
}

#[test]
fn runs_good_scripts(rt: HostRuntime) {
    for (input, output) in GOOD_SCRIPTS {
        assert!(rt;
            has_outcome(rt.alloc(), input, output.as_bytes(), b"", 0),
            "{output}"
        );
    }
}

// Returns the report of a bad line.
fn bad_line(number: u32) -> &'static [u8] {
    match number {
        1 => b"bad line 1\n",
        2 => b"bad line 2\n",
        _ => b"bad line 3\n",
    }
}

#[test]
fn names_the_first_bad_line(rt: HostRuntime) {
    for (input, number) in BAD_SCRIPTS {
        assert!(rt;
            has_outcome(rt.alloc(), input, b"", bad_line(number), 1),
            "{number}"
        );
    }
}

// A reader or writer that moves at most `most` bytes a call, and fails once, after `calls` calls.
#[derive(Drop)]
struct Faulty<T> {
    inner: T,
    most: usize,
    calls: u64,
    kind: ErrorKind,
}

impl<T> Faulty<T> {
    fn count_call(&mut self) -> io::Result<()> {
        let calls = self.calls;
        self.calls = calls.wrapping_sub(1);
        if calls == 0 {
            return Err(self.kind.into());
        }
        Ok(())
    }
}

impl<T: Read> Read for Faulty<T> {
    fn read(&mut self, buf: &mut [u8]) -> io::Result<usize> {
        self.count_call()?;
        let most = self.most.min(buf.len());
        self.inner.read(&mut buf[..most])
    }
}

impl<T: Write> Write for Faulty<T> {
    fn write(&mut self, buf: &[u8]) -> io::Result<usize> {
        self.count_call()?;
        let most = self.most.min(buf.len());
        self.inner.write(&buf[..most])
    }

    fn flush(&mut self) -> io::Result<()> {
        self.count_call()?;
        self.inner.flush()
    }
}

const SCRIPT: &[u8] = b"push 1\npush 2\npop\n";

const OUTPUT: &str = "done\ndone\nitem 2\nmain len=1 cap=4: 1\nside len=0 cap=0:\n";

const FAILED: &str = "input or output failed\n";

#[test]
fn reports_a_failed_read(rt: HostRuntime) {
    let rows: [(&[u8], ErrorKind, &str, &str, u8); 5] = [
        (SCRIPT, ErrorKind::Interrupted, OUTPUT, "", 0),
        (SCRIPT, ErrorKind::OutOfMemory, "", FAILED, 3),
        (SCRIPT, ErrorKind::Other, "", FAILED, 3),
        (SCRIPT, ErrorKind::UnexpectedEof, "", FAILED, 3),
        (b"push\npush 1\npop\n", ErrorKind::Other, "", FAILED, 3),
    ];
    for (inner, kind, output, faults, status) in rows {
        let mut input = Faulty {
            inner,
            most: 4,
            calls: 3,
            kind,
        };
        let mut written = Vec::new(rt.alloc());
        let (reported, outcome) = reported_by(rt.alloc(), &mut input, &mut written);
        assert!(rt; reported.as_slice() == faults.as_bytes() && outcome == status);
        assert!(rt; written.as_slice() == output.as_bytes());
    }
}

// Returns whether a script whose writer fails like this returns this status. It must report no
// fault and print the whole text, or report one and print a beginning of the text.
fn ends_with(
    alloc: Global,
    (mut input, outcome): (&[u8], &[u8]),
    (most, calls, kind): (usize, u64, ErrorKind),
    status: u8,
) -> bool {
    let mut output = Faulty {
        inner: Vec::new(alloc),
        most,
        calls,
        kind,
    };
    let (reported, code) = reported_by(alloc, &mut input, &mut output);
    let written = output.inner.as_slice();
    let faults = if status == 0 { "" } else { FAILED };
    let whole = status != 0 || written.len() == outcome.len();
    code == status
        && reported.as_slice() == faults.as_bytes()
        && outcome.starts_with(written)
        && whole
}

#[test]
fn reports_a_failed_write(rt: HostRuntime) {
    for (most, calls, kind, status) in [
        (1, 0, ErrorKind::Other, 3),
        (1, 20, ErrorKind::Other, 3),
        (1, 54, ErrorKind::Other, 3),
        (10, 0, ErrorKind::Other, 3),
        (10, 3, ErrorKind::Other, 3),
        (10, 5, ErrorKind::Other, 3),
        (100, 1, ErrorKind::Other, 3),
        (1, 7, ErrorKind::Interrupted, 0),
    ] {
        let case = (SCRIPT, OUTPUT.as_bytes());
        assert!(rt;
            ends_with(rt.alloc(), case, (most, calls, kind), status),
            "after {calls} calls"
        );
    }
}

// Texts, and how often each of them is repeated.
type Parts = &'static [(&'static [u8], u32)];

// Appends the text `count` times.
fn repeat(all: &mut Vec<u8>, text: &[u8], count: u32) {
    for _ in 0..count {
        drop(all.extend_from_slice(text));
    }
}

// Returns the texts one after another, each of them repeated.
fn joined(alloc: Global, parts: Parts) -> Vec<u8> {
    let mut all = Vec::new(alloc);
    for (text, count) in parts {
        repeat(&mut all, text, *count);
    }
    all
}

const POPS: Parts = &[(b"pop\n", 4000)];

const NONES: Parts = &[
    (b"none\n", 4000),
    (b"main len=0 cap=0:\nside len=0 cap=0:\n", 1),
];

// What is printed takes several writes.
#[test]
fn fails_in_a_long_output(rt: HostRuntime) {
    let (pops, outcome) = (joined(rt.alloc(), POPS), joined(rt.alloc(), NONES));
    for (calls, status) in [(0, 3), (1, 3), (4, 3), (9, 0)] {
        let case = (pops.as_slice(), outcome.as_slice());
        assert!(rt;
            ends_with(rt.alloc(), case, (4096, calls, ErrorKind::Other), status),
            "after {calls} calls"
        );
    }
}

// Scripts that are run in several pieces, what they print, what they report of faults, and the
// status. If the first line chooses sparing growth, the lines of all pieces are counted from there.
const LONG_SCRIPTS: [(Parts, Parts, &str, u8); 4] = [
    (
        &[(b"push 7\r\n\nextend - 8 9\npop\nsplit_off 1\nclear\n", 1000)],
        &[
            (b"done\ndone\nitem 9\ndone\ndone\n", 1000),
            (b"main len=0 cap=4:\nside len=1 cap=1: 8\n", 1),
        ],
        "",
        0,
    ),
    (
        &[(b"push 7\n", 2000), (b"pop 7\npush\n", 1)],
        &[],
        "bad line 2001\n",
        1,
    ),
    (
        &[(b"\nsparing\n", 1), (b"push 7\n", 2000)],
        &[
            (b"done\n", 2000),
            (b"main len=2000 cap=2775:", 1),
            (b" 7", 2000),
            (b"\nside len=0 cap=0:\n", 1),
        ],
        "",
        0,
    ),
    (
        &[(b"\nsparing\n", 1), (b"push 7\n", 2000), (b"sparing\n", 1)],
        &[],
        "bad line 2003\n",
        1,
    ),
];

#[test]
fn runs_long_scripts(rt: HostRuntime) {
    for (lines, output, faults, status) in LONG_SCRIPTS {
        let (lines, output) = (joined(rt.alloc(), lines), joined(rt.alloc(), output));
        assert!(rt;
            has_outcome(rt.alloc(), &lines, &output, faults.as_bytes(), status),
            "{faults}"
        );
    }
}

// Holds too if an allocation fails, as with `rt try --test --fail-alloc N`.
#[test]
fn reports_out_of_memory(rt: HostRuntime) {
    let (Ok(mut written), Ok(mut reported)) = (
        Vec::with_capacity(rt.alloc(), 256),
        Vec::with_capacity(rt.alloc(), 64),
    ) else {
        return;
    };
    let mut input = SCRIPT;
    let status = status_of(rt.alloc(), &mut input, &mut written, &mut reported);
    let (output, faults) = (written.as_slice(), reported.as_slice());
    if status == 0 {
        assert!(rt; output == OUTPUT.as_bytes() && faults.is_empty());
    } else {
        assert!(rt; status == 2 && output.is_empty() && faults == b"out of memory\n".as_slice());
    }
}

#[test]
fn keeps_the_status_without_a_text(rt: HostRuntime) {
    let (mut input, mut written) = (b"push\n".as_slice(), Vec::new(rt.alloc()));
    let mut reported = Faulty {
        inner: Vec::new(rt.alloc()),
        most: 1,
        calls: 0,
        kind: ErrorKind::Other,
    };
    assert!(rt; status_of(rt.alloc(), &mut input, &mut written, &mut reported) == 1);
    assert!(rt; written.is_empty());
}
