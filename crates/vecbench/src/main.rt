//! Measures the library's vector, and the other collections of this repository, beside the
//! toolchain's own, case by case.
//!
//! Each line of the input is a case to run: `CASE COUNT [REPEAT]`. The result is one line: the
//! case, the count, and the nanoseconds for each element over this library's vector and over the
//! toolchain's. The times are of the fastest of REPEAT runs each (1 if it is left out). The line
//! ends with a checksum of what each left.
//!
//! `check CASE COUNT` prints the checksums without the times, so that the output is the same on
//! each run. `setup CASE COUNT` prepares the case but does not run it. Its instructions can be
//! subtracted from those of the case.
#![tactic(auto)]

// Makes one call for each item, until one fails, and returns whether none failed. If a piece is to
// be taken first, it must exist. This is expanded in the function of a case, so that the compiler
// sees the same loop over either vector.
macro_rules! each_is_granted {
    ($piece:ident of $part:expr, $item:pat in $items:expr, $call:expr) => {{
        let Some($piece) = $part else {
            return false;
        };
        each_is_granted!($item in $items, $call)
    }};
    ($item:pat in $items:expr, $call:expr) => {{
        for $item in $items {
            if $call.is_err() {
                return false;
            }
        }
        true
    }};
}

// Does the same, with a number taken after each number that is put. Their sum is put at the end.
macro_rules! in_and_out {
    ($number:ty, $item:pat in $items:expr, $put:expr, $take:expr, |$sum:ident| $last:expr) => {{
        let mut $sum: $number = 0;
        for $item in $items {
            if $put.is_err() {
                return false;
            }
            if let Some(x) = $take {
                $sum = $sum.wrapping_add(x);
            }
        }
        $last.is_ok()
    }};
}

// Small programs that use vectors, over either vector: `$copied` is its call that appends bytes.
macro_rules! serialised {
    ($bytes:ident, $count:ident, $copied:ident) => {{
        for i in 0..$count {
            if $bytes.push(1).is_err()
                || $bytes.$copied(&i.to_le_bytes()).is_err()
                || $bytes.$copied(&u64::from(i).to_be_bytes()).is_err()
            {
                return false;
            }
        }
        true
    }};
}

// A word ends at each byte below 5.
macro_rules! tokenized {
    ($places:ident, $source:ident) => {{
        let mut start: usize = 0;
        let mut at: usize = 0;
        for byte in $source {
            if *byte < 5 {
                if $places.push(start).is_err() || $places.push(at).is_err() {
                    return false;
                }
                start = at.wrapping_add(1);
            }
            at = at.wrapping_add(1);
        }
        true
    }};
}

// A line ends at each byte that is 1.
macro_rules! lines_read {
    ($texts:ident, $source:ident, $empty:expr) => {{
        let mut line = $empty;
        for byte in $source {
            if *byte == 1 {
                if $texts.push(replace(&mut line, $empty)).is_err() {
                    return false;
                }
            } else if line.push(*byte).is_err() {
                return false;
            }
        }
        true
    }};
}

macro_rules! last_used {
    ($keys:ident, $source:ident) => {{
        let mut hits: usize = 0;
        for byte in $source {
            let key = usize::from(*byte);
            let at = place_of($keys.as_slice(), key);
            if at < $keys.len() {
                $keys.remove(at);
                hits = hits.wrapping_add(1);
            } else if $keys.len() >= 16 {
                $keys.remove(0);
            }
            if $keys.push(key).is_err() {
                return None;
            }
        }
        Some(hits)
    }};
}

macro_rules! merged {
    ($list:ident, $batch:ident, $count:ident) => {{
        for i in 0..$count as usize / 100 {
            if $batch.extend(i..i.saturating_add(100)).is_err() {
                return false;
            }
            let half = $batch.len() / 2;
            if $list.extend($batch.drain(0..half)).is_err() || $list.append($batch).is_err() {
                return false;
            }
        }
        true
    }};
}

macro_rules! rows_written {
    ($bytes:ident, $count:ident, $copied:ident) => {{
        for i in 0..$count {
            let begin = $bytes.len();
            if write!($bytes, "{i}").is_err()
                || $bytes.resize(begin.saturating_add(12), b' ').is_err()
                || $bytes.$copied(b"| a row").is_err()
                || $bytes.resize(begin.saturating_add(30), b' ').is_err()
                || $bytes.push(b'\n').is_err()
            {
                return false;
            }
        }
        true
    }};
}

macro_rules! inserted_in_order {
    ($list:ident, $source:ident) => {{
        for x in $source {
            if $list.len() >= 1000 {
                $list.clear();
            }
            let at = match $list.as_slice().binary_search(x) {
                Ok(at) => at,
                Err(at) => at,
            };
            if $list.insert(at.min($list.len()), *x).is_err() {
                return false;
            }
        }
        true
    }};
}

macro_rules! grid_computed {
    ($list:ident, $count:ident) => {{
        if $list.resize($count as usize, 1).is_err() {
            return false;
        }
        for i in 100..$count as usize {
            if i < $list.len() {
                let sum = $list[i - 100].wrapping_add($list[i - 1]);
                $list[i] = sum;
            }
        }
        true
    }};
}

macro_rules! boxes_summed {
    ($list:ident, $count:ident, |$value:ident| $boxed:expr) => {{
        for $value in 0..$count {
            let Ok(boxed) = $boxed else {
                return None;
            };
            if $list.push(boxed).is_err() {
                return None;
            }
        }
        let mut sum: usize = 0;
        for _ in 0..$count {
            if let Some(number) = $list.pop() {
                sum = sum.wrapping_add(*number as usize);
            }
        }
        Some(sum)
    }};
}

macro_rules! rows_built {
    ($rows:ident, $count:ident, $empty:expr) => {{
        for i in 0..$count as usize / 10 {
            let mut row = $empty;
            for k in 0..10 {
                if row.push(i ^ k).is_err() {
                    return false;
                }
            }
            if $rows.push(row).is_err() {
                return false;
            }
        }
        true
    }};
}

// Swaps each row with one in no regular order.
macro_rules! rows_swapped {
    ($rows:ident) => {{
        let mut state: u32 = 1;
        for i in 0..$rows.len() {
            state = state.wrapping_mul(1_664_525).wrapping_add(1_013_904_223);
            let at = (state >> 8) as usize % $rows.len().max(1);
            if i < $rows.len() && at < $rows.len() {
                $rows.swap(i, at);
            }
        }
    }};
}

macro_rules! window_summed {
    ($list:ident, $count:ident) => {{
        let mut sum: usize = 0;
        for i in 0..$count as usize {
            if $list.push(i).is_err() {
                return None;
            }
            if $list.len() > 100 {
                sum = sum.wrapping_add($list.remove(0));
            }
        }
        Some(sum)
    }};
}

mod bench;
mod checksum;
mod element;
mod ours;
mod serials;
mod standard;

use std::process::ExitCode;

fn main(rt: HostRuntime) -> ExitCode {
    match bench::bench(&rt) {
        Ok(()) => ExitCode::SUCCESS,
        Err(fault) => {
            let _ = eprintln!(rt; "{fault}");
            ExitCode::from(fault.status())
        }
    }
}
