//! A run for a host: all that it owns is lent for the call, and nothing else is kept.
ghost use Rattle.std.specs.Prelude.{◌≡◌};
ghost use Rattle.alias_host.specs.Hosts.{IsHostRun, put_front};

use crate::reply::reply_to_line;
use std::alloc::Global;

/// Puts a text at the front of the room for it, or as much of it as there is room for.
fn put_front(text: &[u8], room: &mut [u8])
    ensures { room.new ≡ put_front text.now room.old }
{
    let count = text.len().min(room.len());
    room[..count].copy_from_slice(&text[..count]);
}

/// Does what the words of the line ask for, on this input: gives the status, sets the length of the text, and puts the text into the room for it, or
/// as much of it as there is room for. Never says that a read or a write failed.
pub fn run_for_host(
    alloc: Global,
    line: &[u8],
    input: &[u8],
    room: &mut [u8],
    text_length: &mut usize,
) -> u8
    ensures run { IsHostRun line.now input.now room.old room.new text_length.new result }
    ensures never { ¬ (result ≡ 7) × ¬ (result ≡ 8) }
{
    let reply = reply_to_line(alloc, line, input);
    let code = reply.status.code();
    *text_length = reply.text.len();
    put_front(reply.text.as_slice(), room);
    code
}
