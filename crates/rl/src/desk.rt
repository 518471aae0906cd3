// What the program does, over the names of its four files.
ghost use Rattle.std.specs.Prelude.{◌≡◌, length};
ghost use Rattle.listing.specs.Listing.{text_room, card_room, slip_room, editor_room};
ghost use Rattle.listing.specs.Printed.{page};

use input::read_full;
use listing::{CARD_ROOM, EDITOR_ROOM, PAGE, SLIP_ROOM, TEXT_ROOM};
use std::fs::File;
use std::io;
use std::io::Read;
use std::rt::Files;

// The line of a file that cannot be opened or read.
fn write_unread(rt: &impl Print, name: &[u8]) -> io::Result<()> {
    rt.write_all(b"unread ")?;
    rt.write_all(name)?;
    rt.write_all(b"\n")
}

// Opens a file to read it. A path is text, so there is no file under a name that is none.
fn open<R: Files>(rt: &R, name: &[u8]) -> Option<R::File> {
    let name = str::from_utf8(name).ok()?;
    File::open(rt, name).ok()
}

// Room for what is read of a text, of a card, of a slip and of an editor file (`listing_cut`): each function says which room of the definitions it is.
fn blank_text() -> [u8; TEXT_ROOM]
    ensures { text_room ≡ length result }
{
    [0; TEXT_ROOM]
}

fn blank_card() -> [u8; CARD_ROOM]
    ensures { card_room ≡ length result }
{
    [0; CARD_ROOM]
}

fn blank_slip() -> [u8; SLIP_ROOM]
    ensures { slip_room ≡ length result }
{
    [0; SLIP_ROOM]
}

fn blank_editor() -> [u8; EDITOR_ROOM]
    ensures { editor_room ≡ length result }
{
    [0; EDITOR_ROOM]
}

// Zeros, as many as the longest listing has bytes.
fn blank() -> [u8; PAGE]
    ensures { page ≡ length result }
{
    [0; PAGE]
}

// Writes the listing of a rule text, a card, a slip and an editor file.
fn write_listing(
    rt: &impl Print,
    text: &[u8],
    card: &[u8],
    slip: &[u8],
    editor: &[u8],
) -> io::Result<()> {
    let mut out = blank();
    let n = listing::list(text, card, slip, editor, &mut out);
    rt.write_all(&out[..n])
}

// Reads the four open files, each until it ends or fills its room; the first that cannot be read, in this order, is named and nothing else is written.
fn run<F: Read + Drop>(
    rt: &impl Print,
    mut rules: F,
    mut card: F,
    mut slip: F,
    mut editor: F,
    rules_name: &[u8],
    card_name: &[u8],
    slip_name: &[u8],
    editor_name: &[u8],
) -> io::Result<()> {
    let mut text = blank_text();
    let rules_read = read_full(&mut rules, &mut text);
    drop(rules);
    let mut c = blank_card();
    let card_read = read_full(&mut card, &mut c);
    drop(card);
    let mut s = blank_slip();
    let slip_read = read_full(&mut slip, &mut s);
    drop(slip);
    let mut e = blank_editor();
    let editor_read = read_full(&mut editor, &mut e);
    drop(editor);
    let Ok(n) = rules_read else {
        return write_unread(rt, rules_name);
    };
    let Ok(m) = card_read else {
        return write_unread(rt, card_name);
    };
    let Ok(k) = slip_read else {
        return write_unread(rt, slip_name);
    };
    let Ok(j) = editor_read else {
        return write_unread(rt, editor_name);
    };
    write_listing(rt, &text[..n], &c[..m], &s[..k], &e[..j])
}

// Opens the four files before it reads any, and writes what is listed of them.
pub fn run_on<R: Files + Print>(
    rt: &R,
    rules_name: &[u8],
    card_name: &[u8],
    slip_name: &[u8],
    editor_name: &[u8],
) -> io::Result<()> {
    let Some(rules) = open(rt, rules_name) else {
        return write_unread(rt, rules_name);
    };
    let Some(card) = open(rt, card_name) else {
        return write_unread(rt, card_name);
    };
    let Some(slip) = open(rt, slip_name) else {
        return write_unread(rt, slip_name);
    };
    let Some(editor) = open(rt, editor_name) else {
        return write_unread(rt, editor_name);
    };
    run(
        rt,
        rules,
        card,
        slip,
        editor,
        rules_name,
        card_name,
        slip_name,
        editor_name,
    )
}
