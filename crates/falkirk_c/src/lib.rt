//! Sessions of lines for C, and for all that calls as C does: `include/falkirk.h` says what each call means there.
#![tactic(auto)]

mod handle;

ghost use Rattle.std.specs.Prelude.{◌≡◌, IfOk, length};
ghost use Rattle.std.specs.declared.option.Option.TheVariants.{None, Some};
ghost use Rattle.fw_talk.specs.Talk.{IsOpenedTalk};
ghost use Rattle.falkirk_c.specs.Calls.{code_of, Opens, OpensFrom, MayOpen, Gathers, Keeps, Tells, Copies, Counts, Shows, CopiesWrite, IsCopied, bytes_of};

use fw_talk::{Reply, Talk, Unstarted};
use fw_writing::RecordWrite;
pub use handle::Handle;
use std::alloc::{AllocError, Global};
use std::mem::replace;

/// The answer is there.
const ANSWERED: u32 = 0;
/// The text of the flow is refused; the refusal is the answer.
const FLOW_REFUSED: u32 = 1;
/// Memory was refused, now or earlier.
const NO_MEMORY: u32 = 2;
/// The handle holds no session; or none that does what is asked for.
const NO_SESSION: u32 = 3;
/// A record that a session needs to go on was not told.
const RECORD_MISSING: u32 = 4;
/// A record that was told is none of a session.
const RECORD_DAMAGED: u32 = 5;
/// The records that were told are of a session over another text.
const RECORDS_FOREIGN: u32 = 6;

/// Where bytes begin, and how many there are.
#[repr(C)]
#[derive(Drop)]
pub struct Bytes {
    pub at: *const u8,
    pub len: usize,
}

/// What was done to a record, and where the bytes begin that were put; where it was removed there are none, and `at` is as it was.
#[repr(C)]
#[derive(Drop)]
pub struct Write {
    pub id: u64,
    pub put: bool,
    pub at: *const u8,
    pub len: usize,
}

/// Opens a session over the flow of this text; with `rests` each line that is accepted ends with steps to rest. One that the handle held
/// is closed. Where there is no memory the handle stays as it was.
#[unsafe(no_mangle)]
pub extern "C" fn falkirk_open(alloc: Global, session: &mut Handle, flow: &[u8], rests: bool) -> u32
    ensures { Opens flow.now rests session.old.holds result session.new.holds }
{
    match opened(alloc, flow, rests) {
        Ok(talk) => {
            let code = code_of(talk.reply());
            session.put(alloc, talk);
            code
        }
        Err(_) => NO_MEMORY,
    }
}

// A talk over the flow of the text, in a box. The error is want of memory.
fn opened(alloc: Global, flow: &[u8], rests: bool) -> Result<Box<Talk>, AllocError>
    ensures { IfOk result (λ talk. IsOpenedTalk flow.now rests talk.value.speaker talk.value.answer.items) }
{
    Talk::open(alloc, flow, rests)?.boxed(alloc)
}

// The number of a reply.
fn code_of(reply: Reply) -> u32
    ensures { result ≡ code_of reply }
{
    match reply {
        Reply::Answered => ANSWERED,
        Reply::FlowRefused => FLOW_REFUSED,
        Reply::NoMemory => NO_MEMORY,
        Reply::NoSession => NO_SESSION,
        Reply::Unstarted(Unstarted::Missing) => RECORD_MISSING,
        Reply::Unstarted(Unstarted::Damaged) => RECORD_DAMAGED,
        Reply::Unstarted(Unstarted::Foreign) => RECORDS_FOREIGN,
    }
}

/// Answers a line. What stands behind its first line feed is left out.
#[unsafe(no_mangle)]
pub extern "C" fn falkirk_line(alloc: Global, session: &mut Handle, line: &[u8]) -> u32
    ensures { Tells line.now session.old.holds result session.new.holds }
{
    match session.take(alloc) {
        None => NO_SESSION,
        Some(mut talk) => {
            let code = code_of(talk.line(line));
            session.put(alloc, talk);
            code
        }
    }
}

/// Copies the last answer into the room, where it fits; how many bytes it has.
#[unsafe(no_mangle)]
pub extern "C" fn falkirk_answer(alloc: Global, session: &mut Handle, room: &mut [u8]) -> usize
    ensures kept { session.new.holds ≡ session.old.holds }
    ensures copied { Copies session.old.holds room.old result room.new }
{
    match session.take(alloc) {
        None => 0,
        Some(talk) => {
            let count = copy(talk.answer(), room);
            session.put(alloc, talk);
            count
        }
    }
}

// Copies bytes to where a room begins, if they fit; how many they are.
fn copy(bytes: &[u8], room: &mut [u8]) -> usize
    ensures count { result ≡ length bytes.now }
    ensures copied { IsCopied bytes.now room.old room.new }
{
    let count = bytes.len();
    if count > room.len() {
        return count;
    }
    room[..count].copy_from_slice(bytes);
    count
}

/// Tells where the last answer lies. Its bytes stay there until the next call with this handle.
#[unsafe(no_mangle)]
pub extern "C" fn falkirk_answer_at(alloc: Global, session: &mut Handle, out: &mut Bytes) -> bool
    ensures kept { session.new.holds ≡ session.old.holds }
    ensures counted { Counts session.old.holds out.old result out.new }
{
    match session.take(alloc) {
        None => false,
        Some(talk) => {
            out.at = talk.answer_start();
            out.len = talk.answer().len();
            session.put(alloc, talk);
            true
        }
    }
}

/// Begins to be told the records that were kept of a session that lasts; none was told yet. A session that the handle held is closed. Where
/// there is no memory the handle stays as it was.
#[unsafe(no_mangle)]
pub extern "C" fn falkirk_gather(alloc: Global, session: &mut Handle) -> u32
    ensures { Gathers session.old.holds result session.new.holds }
{
    match Talk::gathering(alloc).boxed(alloc) {
        Ok(talk) => {
            session.put(alloc, talk);
            ANSWERED
        }
        Err(_) => NO_MEMORY,
    }
}

/// Tells a record that was kept: these bytes are under the id.
#[unsafe(no_mangle)]
pub extern "C" fn falkirk_put(alloc: Global, session: &mut Handle, id: u64, bytes: &[u8]) -> u32
    ensures { Keeps id (Some bytes.now) session.old.holds result session.new.holds }
{
    match session.take(alloc) {
        None => NO_SESSION,
        Some(mut talk) => {
            let code = code_of(talk.put_kept(id, bytes));
            session.put(alloc, talk);
            code
        }
    }
}

/// Tells that a record was not kept: nothing is under the id.
#[unsafe(no_mangle)]
pub extern "C" fn falkirk_remove(alloc: Global, session: &mut Handle, id: u64) -> u32
    ensures { Keeps id None session.old.holds result session.new.holds }
{
    match session.take(alloc) {
        None => NO_SESSION,
        Some(mut talk) => {
            let code = code_of(talk.remove_kept(id));
            session.put(alloc, talk);
            code
        }
    }
}

/// Opens a session that lasts over the flow of this text: it goes on from the records that were told, which are those of one over it, or
/// none. Its answer are the lines that it kept last.
#[unsafe(no_mangle)]
pub extern "C" fn falkirk_open_from(
    alloc: Global,
    session: &mut Handle,
    flow: &[u8],
    rests: bool,
) -> u32
    requires { MayOpen flow.now session.old.holds }
    ensures { OpensFrom flow.now rests session.old.holds result session.new.holds }
{
    match session.take(alloc) {
        None => NO_SESSION,
        Some(mut talk) => {
            let code = code_of(talk.start(alloc, flow, rests));
            session.put(alloc, talk);
            code
        }
    }
}

/// Tells what was done to a record on the way to where the session is, by its place in order, and where its bytes lie. They stay there until
/// the next call with this handle.
#[unsafe(no_mangle)]
pub extern "C" fn falkirk_writes(
    alloc: Global,
    session: &mut Handle,
    place: usize,
    out: &mut Write,
) -> bool
    ensures kept { session.new.holds ≡ session.old.holds }
    ensures shown { Shows place session.old.holds out.old result out.new }
{
    match session.take(alloc) {
        None => false,
        Some(talk) => {
            let found = show(&talk, place, out);
            session.put(alloc, talk);
            found
        }
    }
}

// Shows what was done to a record by a talk's session.
fn show(talk: &Talk, place: usize, out: &mut Write) -> bool
    ensures { Shows place (Some talk.now) out.old result out.new }
{
    match talk.writes().get(place) {
        Some(write) => {
            out.id = write.id;
            out.put = write.bytes.is_some();
            out.at = start_of(write, out.at);
            out.len = bytes_of(write).len();
            true
        }
        None => false,
    }
}

// Where the bytes begin that were put; this pointer where the record was removed. No clause says what lies there.
fn start_of(write: &RecordWrite, other: *const u8) -> *const u8 {
    match &write.bytes {
        Some(bytes) => bytes.as_ptr(),
        None => other,
    }
}

// The bytes that were put; none where the record was removed.
fn bytes_of(write: &RecordWrite) -> &[u8]
    ensures { result.now ≡ bytes_of write.now }
{
    match &write.bytes {
        Some(bytes) => bytes.as_slice(),
        None => &[],
    }
}

/// Copies the bytes of a write into the room, where they fit; how many they are.
#[unsafe(no_mangle)]
pub extern "C" fn falkirk_write_bytes(
    alloc: Global,
    session: &mut Handle,
    place: usize,
    room: &mut [u8],
) -> usize
    ensures kept { session.new.holds ≡ session.old.holds }
    ensures copied { CopiesWrite place session.old.holds room.old result room.new }
{
    match session.take(alloc) {
        None => 0,
        Some(talk) => {
            let count = copy_write(&talk, place, room);
            session.put(alloc, talk);
            count
        }
    }
}

// Copies the bytes of a write of a talk's session.
fn copy_write(talk: &Talk, place: usize, room: &mut [u8]) -> usize
    ensures { CopiesWrite place (Some talk.now) room.old result room.new }
{
    match talk.writes().get(place) {
        Some(write) => copy(bytes_of(write), room),
        None => 0,
    }
}

/// Closes the session, if the handle holds one. It may be called again.
#[unsafe(no_mangle)]
pub extern "C" fn falkirk_close(alloc: Global, session: &mut Handle)
    ensures { session.new.holds ≡ None }
{
    replace(session, Handle::empty()).close(alloc);
}
