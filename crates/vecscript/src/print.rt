//! What a script prints: one line for each reply, and one line for each list.
ghost use Rattle.std.specs.Prelude.{◌≡◌, ◌+◌, ◌≤◌, ◌++◌, ◌∷◌, codes, drop, length, decimal, OnOk};
ghost use Rattle.vecscript.specs.Print.{line_of, reply_text, replies_text, elements_text, list_text};

use allocator_api2::collections::TryReserveErrorKind;
use allocator_api2::runner::Reply;
use allocator_api2::vec::Vec;
use std::alloc::Global;
use std::io;
use std::io::Write;

/// The text to print, in memory.
type Text = std::vec::Vec<u8>;

/// Appends one line for each reply to the text.
///
/// Allocates for the lines.
///
/// # Errors
/// Returns an error if an allocation fails.
pub fn print_replies(output: &mut Text, replies: &[Reply<u32>]) -> io::Result<()>
    ensures { OnOk result (output.new.items ≡ output.old.items ++ replies_text replies.now) }
{
    for reply in replies {
        print_reply(output, reply)?;
    }
    Ok(())
}

// Appends the line of the reply to the text.
fn print_reply(output: &mut Text, reply: &Reply<u32>) -> io::Result<()>
    ensures { OnOk result (output.new.items ≡ output.old.items ++ line_of (reply_text reply.now)) }
{
    match reply {
        Reply::Done => print_bytes(output, b"done\n"),
        Reply::Item(x) => print_numbered(output, b"item", *x),
        Reply::Nothing => print_bytes(output, b"none\n"),
        Reply::Back(x) => print_numbered(output, b"back", *x),
        Reply::Refused(kind) => match kind {
            TryReserveErrorKind::CapacityOverflow => print_bytes(output, b"refused capacity\n"),
            TryReserveErrorKind::AllocError { .. } => print_bytes(output, b"refused memory\n"),
        },
        Reply::Range => print_bytes(output, b"range\n"),
    }
}

// Appends a line of the word and the number.
fn print_numbered(output: &mut Text, word: &[u8], x: u32) -> io::Result<()>
    ensures { OnOk result
        (output.new.items ≡ output.old.items ++ line_of (word.now ++ 32 ∷ decimal x)) }
{
    let mut buffer = [b'\n'; WIDTH + 1];
    let start = lay_out(x, &mut buffer, WIDTH);
    print_bytes(output, word)?;
    print_bytes(output, &buffer[start..])
}

/// Appends one line for each list to the text: its name, length, capacity and elements.
///
/// Allocates for the lines.
///
/// # Errors
/// Returns an error if an allocation fails.
pub fn print_lists(
    output: &mut Text,
    main: &Vec<u32, Global>,
    side: &Vec<u32, Global>,
) -> io::Result<()>
    ensures { OnOk result (output.new.items ≡ output.old.items
        ++ (line_of (list_text (codes "main") main.now.capacity main.now.items)
        ++ line_of (list_text (codes "side") side.now.capacity side.now.items))) }
{
    print_line(output, "main", main.capacity(), main.as_slice())?;
    print_line(output, "side", side.capacity(), side.as_slice())
}

// Appends the line of the list to the text.
fn print_line(output: &mut Text, name: &str, capacity: usize, elements: &[u32]) -> io::Result<()>
    ensures { OnOk result (output.new.items ≡ output.old.items
        ++ line_of (list_text name.now capacity elements.now)) }
{
    let length = elements.len();
    write!(output, "{name} len={length} cap={capacity}:")?;
    print_elements(output, elements)?;
    print_bytes(output, b"\n")
}

// Appends each of the elements to the text, after a space.
fn print_elements(output: &mut Text, elements: &[u32]) -> io::Result<()>
    ensures { OnOk result
        (output.new.items ≡ output.old.items ++ elements_text elements.now) }
{
    let mut buffer = [b' '; WIDTH];
    for x in elements {
        let start = lay_out(*x, &mut buffer, WIDTH);
        print_bytes(output, &buffer[start..])?;
    }
    Ok(())
}

// Appends the bytes to the text, which is unchanged if the allocation fails. Inlined, so that a few
// known bytes are stored without a call.
#[inline(always)]
fn print_bytes(output: &mut Text, bytes: &[u8]) -> io::Result<()>
    ensures { OnOk result (output.new.items ≡ output.old.items ++ bytes.now) }
{
    output.extend_from_slice(bytes)?;
    Ok(())
}

// The number of bytes of a space and the longest element.
const WIDTH: usize = 11;

// Writes a space and the element into the buffer, ending before index `end`, and returns the index
// at which they begin.
#[tactic(auto, using(crate::proofs::Decimals::decimals))]
fn lay_out(x: u32, buffer: &mut [u8], end: usize) -> usize
    requires { (WIDTH ≤ end) × (end ≤ length buffer.old) }
    ensures start { result ≤ end }
    ensures text { drop result buffer.new ≡ 32 ∷ decimal x ++ drop end buffer.old }
{
    let (mut at, mut rest) = (end, x);
    'digits: while 10 <= rest {
        at -= 1;
        buffer[at] = b'0' + (rest % 10) as u8;
        rest /= 10;
    }
    buffer[at - 1] = b'0' + rest as u8;
    buffer[at - 2] = b' ';
    at - 2
}
