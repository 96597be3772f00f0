//! The blocks that are open.

ghost use Rattle.std.specs.Prelude.{◌≡◌, ◌++◌, IfOk, OnOk, Some, map, remove};
ghost use Rattle.sva_driver_texts.specs.Blocks as blocks;
ghost use Rattle.sva_driver_texts.specs.Blocks.{Changes, block_seen};

use std::alloc::{AllocError, Global};
use sva_driver_words::{BranchWanted, DriverWanted, DriverWrong, Under, put_fault, wrong_at};
use sva_script::{Names, is};

/// A block that is open.
#[derive(Drop)]
pub struct Block {
    /// Its thread; empty before `race`.
    pub thread: Vec<u8>,
    /// The number of its `if` in the text, from 1 on.
    pub number: u64,
    /// The place of its `if`, and in which of its branches the lines that follow stand.
    pub under: Under,
    /// Whether its `if` is right. In the block of a wrong one no line stands.
    pub is_right: bool,
}

/// The word of its first line.
const IF: [&[u8]; 1] = [b"if"];

fn is_of(thread: &[u8], block: &Block) -> bool
    ensures { result ≡ blocks.is_of thread.now (block_seen block.now) }
{
    is(block.thread.as_slice(), thread)
}

/// Adds a block in which a line of a thread stands.
fn add_one(under: &mut Vec<Under>, thread: &[u8], block: &Block) -> Result<(), AllocError>
    ensures { IfOk result (λ _. under.new.items
        ≡ under.old.items ++ blocks.under_one thread.now (block_seen block.now)) }
{
    if is_of(thread, block) && block.is_right {
        under.push(block.under)?;
    }
    Ok(())
}

/// Those in which a line of a thread stands, the outermost first.
pub(crate) fn under_of(
    alloc: Global,
    thread: &[u8],
    list: &[Block],
) -> Result<Vec<Under>, AllocError>
    ensures { IfOk result (λ under. under.items ≡ blocks.under_of thread.now (map block_seen list.now)) }
{
    let mut under = Vec::new(alloc);
    for block in list {
        add_one(&mut under, thread, block)?;
    }
    Ok(under)
}

/// The place of the one of a thread that was opened last. It looks from the end.
fn last_of(thread: &[u8], list: &[Block]) -> Option<usize>
    ensures { result ≡ blocks.last_of thread.now (map block_seen list.now) }
{
    for place in (0..list.len()).rev() {
        if is_of(thread, &list[place]) {
            return Some(place);
        }
    }
    None
}

/// The lines that follow stand in the other branch of a block.
fn turn(block: &mut Block)
    ensures { block_seen block.new ≡ blocks.turned (block_seen block.old) }
{
    block.under.so = false;
}

/// Takes `else` in the block at a place.
fn turn_at(list: &mut Vec<Block>, place: usize) -> Result<(), DriverWrong>
    ensures { Changes (blocks.else_at (map block_seen list.old.items) (Some place)) (map block_seen list.old.items)
        (map block_seen list.new.items) result }
{
    if place >= list.len() {
        return Err(wrong_at(0, DriverWanted::Branch(BranchWanted::If)));
    }
    if !list[place].under.so {
        return Err(wrong_at(0, DriverWanted::Branch(BranchWanted::NoElse)));
    }
    turn(&mut list[place]);
    Ok(())
}

/// Takes out the block at a place.
fn remove_at(list: &mut Vec<Block>, place: usize)
    ensures { map block_seen list.new.items ≡ remove (map block_seen list.old.items) place }
{
    if place < list.len() {
        list.remove(place);
    }
}

/// Takes `else` or `end`, of a thread.
pub(crate) fn branch(list: &mut Vec<Block>, thread: &[u8], word: &[u8]) -> Result<(), DriverWrong>
    ensures { Changes (blocks.branched (map block_seen list.old.items) thread.now word.now)
        (map block_seen list.old.items) (map block_seen list.new.items) result }
{
    let Some(place) = last_of(thread, list.as_slice()) else {
        return Err(wrong_at(0, DriverWanted::Branch(BranchWanted::If)));
    };
    if is(word, b"else") {
        return turn_at(list, place);
    }
    remove_at(list, place);
    Ok(())
}

/// Tells of a block that it isn't ended, at its `if`, unless that is wrong.
fn put_one(block: &Block, names: &Names, out: &mut Vec<u8>) -> Result<(), AllocError>
    ensures { OnOk result (out.new.items
        ≡ out.old.items ++ blocks.open_text names.now (block_seen block.now)) }
{
    if !block.is_right {
        return Ok(());
    }
    let wrong = wrong_at(0, DriverWanted::Branch(BranchWanted::End));
    put_fault(out, &wrong, block.number, &IF, names)
}

/// Tells of each block that it isn't ended.
pub(crate) fn put_open(list: &[Block], names: &Names, out: &mut Vec<u8>) -> Result<(), AllocError>
    ensures { OnOk result (out.new.items
        ≡ out.old.items ++ blocks.open_texts names.now (map block_seen list.now)) }
{
    for block in list {
        put_one(block, names, out)?;
    }
    Ok(())
}
