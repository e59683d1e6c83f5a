//! The kernel's table of UDP sockets, /proc/net/udp (proc(5)).

ghost use Rattle.std.specs.Prelude.{◌≡◌, ◌<◌, ◌==◌, ◌++◌, ◌∷◌, [], IfOk, MatchOption, OnOk, map, ℕ};
ghost use Rattle.std.specs.List.{filter, slice_split};
ghost use Rattle.counter_text.specs.Sockets.{AreCounts, AreDropsAt, columns, drop_columns, has_bytes, hex_digit, is_at, is_local, last_column, local_column};

use command_explain::number_of;
use ipv4_fields::Endpoint;
use std::alloc::{AllocError, Global};

fn hex_digit(digit: u32) -> u8
    requires { digit < 16 }
    ensures { result ≡ hex_digit digit }
{
    if digit < 10 {
        b'0' + digit as u8
    } else {
        b'A' - 10 + digit as u8
    }
}

// The column of an address and a port.
fn local_column(address: u32, port: u16) -> [u8; 13]
    ensures { result ≡ local_column address port }
{
    let (a, b) = (address / 0x100_0000, address / 0x1_0000 % 256);
    let (c, d) = (address / 256 % 256, address % 256);
    let port = u32::from(port);
    let (high, low) = (port / 256, port % 256);
    [
        hex_digit(d / 16),
        hex_digit(d % 16),
        hex_digit(c / 16),
        hex_digit(c % 16),
        hex_digit(b / 16),
        hex_digit(b % 16),
        hex_digit(a / 16),
        hex_digit(a % 16),
        b':',
        hex_digit(high / 16),
        hex_digit(high % 16),
        hex_digit(low / 16),
        hex_digit(low % 16),
    ]
}

fn is_local(front: Endpoint, column: &[u8]) -> bool
    ensures { result ≡ is_local front column.now }
{
    column == local_column(front.address, front.port).as_slice()
        || column == local_column(0, front.port).as_slice()
}

// A text cut at each of these bytes.
fn pieces<'a>(alloc: Global, separator: u8, text: &'a [u8]) -> Result<Vec<&'a [u8]>, AllocError>
    ensures { IfOk result (λ pieces. map (λ piece. piece.now) pieces.items ≡ slice_split (λ byte. byte == separator) text.entry.now) }
{
    text.split(|byte| *byte == separator).collect(alloc)
}

// Adds a piece of a line to its columns, if it has a byte.
fn push_column<'a>(row: &mut Vec<&'a [u8]>, piece: &'a [u8]) -> Result<(), AllocError>
    ensures { OnOk result (map (λ column. column.now) row.new.items ≡ map (λ column. column.now) row.old.items ++ filter has_bytes (piece.entry.now ∷ [])) }
{
    if piece.is_empty() {
        return Ok(());
    }
    row.push(piece)?;
    Ok(())
}

// The columns of a line.
fn columns<'a>(alloc: Global, line: &'a [u8]) -> Result<Vec<&'a [u8]>, AllocError>
    ensures { IfOk result (λ row. map (λ column. column.now) row.items ≡ columns line.entry.now) }
{
    let mut row = Vec::new(alloc);
    for piece in &pieces(alloc, b' ', line)? {
        push_column(&mut row, piece)?;
    }
    Ok(row)
}

// The second column, and the last one.
fn is_at(front: Endpoint, row: &[&[u8]]) -> bool
    ensures { result ≡ is_at front (map (λ column. column.now) row.now) }
{
    match row {
        [_, column, ..] => is_local(front, column),
        _ => is_local(front, &[]),
    }
}

fn last_column<'a>(row: &[&'a [u8]]) -> &'a [u8]
    ensures { result.now ≡ last_column (map (λ column. column.now) row.now) }
{
    match row {
        [.., column] => *column,
        [] => &[],
    }
}

// Adds the last column of a line, if its socket is at the front.
fn push_drops<'a>(
    found: &mut Vec<&'a [u8]>,
    front: Endpoint,
    row: &[&'a [u8]],
) -> Result<(), AllocError>
    ensures { OnOk result (map (λ column. column.now) found.new.items
        ≡ map (λ column. column.now) found.old.items ++ map last_column (filter (is_at front) (map (λ column. column.now) row.now ∷ []))) }
{
    if !is_at(front, row) {
        return Ok(());
    }
    found.push(last_column(row))?;
    Ok(())
}

// The last columns of the lines of sockets that are at the front.
fn drop_columns<'a>(
    alloc: Global,
    table: &'a [u8],
    front: Endpoint,
) -> Result<Vec<&'a [u8]>, AllocError>
    ensures { IfOk result (λ found. map (λ column. column.now) found.items ≡ drop_columns front (slice_split (λ byte. byte == 10) table.entry.now)) }
{
    let mut found = Vec::new(alloc);
    for line in &pieces(alloc, b'\n', table)? {
        let row = columns(alloc, line)?;
        push_drops(&mut found, front, &row)?;
    }
    Ok(found)
}

// The sum of columns that are counts. Returns `None` if there is none, if one is no count, or if the sum is too great.
fn sum_of(columns: &[&[u8]]) -> Option<u64>
    ensures { MatchOption result ((n : ℕ) → AreCounts (map (λ column. column.now) columns.now) n → ⊥) (AreCounts (map (λ column. column.now) columns.now)) }
{
    if columns.is_empty() {
        return None;
    }
    let mut sum = 0u64;
    for column in columns {
        let Some(number) = number_of(column) else {
            return None;
        };
        let Some(more) = sum.checked_add(number) else {
            return None;
        };
        sum = more;
    }
    Some(sum)
}

/// Returns how many datagrams the kernel dropped at the sockets that are bound to the front, or to 0.0.0.0 with its port, by the table.
/// Returns `None` if there is no such socket, if a line of one does not end in a number, or if the sum is too great.
pub fn drops_at(alloc: Global, table: &[u8], front: Endpoint) -> Result<Option<u64>, AllocError>
    ensures { IfOk result (λ found. MatchOption found ((n : ℕ) → AreDropsAt front table.now n → ⊥) (AreDropsAt front table.now)) }
{
    let columns = drop_columns(alloc, table, front)?;
    Ok(sum_of(&columns))
}
