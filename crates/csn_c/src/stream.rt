//! Blocks that come in pieces.

ghost use Rattle.std.specs.Prelude.{◌≡◌, None, MatchOption, Some};
ghost use Rattle.csn_rule.specs.Blocks.{block_in};
ghost use Rattle.csn_rule.specs.Streams.{at_begin};
ghost use Rattle.csn_c.specs.Numbers.{IsBlock};
ghost use Rattle.csn_c.specs.Streams.{EndsTo, OpensTo, Pushes, PushesTo};
ghost use Rattle.csn_c.specs.declared.status.TheConstants.{BAD_ARGUMENT, NO_RULE, OK};

use crate::numbers::is_block;
use crate::status::{
    BAD_ARGUMENT, NO_MEMORY, NO_RULE, OK, TOO_LONG, status_of_judged, status_of_verdict,
};
use csn_rule::{Handle, MOST_BITS, Stream, StreamHandle};
use std::alloc::{AllocFailed, Global};
use std::boxed::Box;

/// Gives the rule of a handle to a stream, which holds no bits so far.
#[unsafe(no_mangle)]
pub extern "C" fn csn_stream_open(
    alloc: Global,
    rule: &mut Handle,
    stream: &mut StreamHandle,
) -> u32
    ensures opens { OpensTo rule.old.held stream.old.held result rule.new.held stream.new.held }
{
    let Some(held) = rule.take(alloc) else {
        return NO_RULE;
    };
    match Box::new(alloc, Stream::new(held)) {
        Ok(boxed) => {
            stream.put(alloc, boxed);
            OK
        }
        Err(AllocFailed { value }) => {
            rule.put(alloc, value.into_rule());
            NO_MEMORY
        }
    }
}

/// Forgets the block of a stream.
#[unsafe(no_mangle)]
pub extern "C" fn csn_stream_begin(alloc: Global, stream: &mut StreamHandle) -> u32
    ensures { MatchOption stream.old.held ((result ≡ NO_RULE) × (stream.new.held ≡ None))
        (λ s. (result ≡ OK) × (stream.new.held ≡ Some (at_begin s.desc))) }
{
    let Some(mut held) = stream.take(alloc) else {
        return NO_RULE;
    };
    held.begin();
    stream.put(alloc, held);
    OK
}

/// Adds bits to the block of a stream: the first `bits` bits of the octets.
#[unsafe(no_mangle)]
pub extern "C" fn csn_stream_push(
    alloc: Global,
    stream: &mut StreamHandle,
    octets: &[u8],
    bits: u32,
    number: &mut usize,
) -> u32
    ensures bad { ¬ IsBlock octets.now bits → (result ≡ BAD_ARGUMENT) × (stream.new.held ≡ stream.old.held) }
    ensures pushes { IsBlock octets.now bits → MatchOption stream.old.held ((result ≡ NO_RULE) × (stream.new.held ≡ None))
        (λ s. Pushes s (block_in octets.now bits) bits result number.old number.new stream.new.held) }
{
    if !is_block(octets, bits) {
        return BAD_ARGUMENT;
    }
    let Some(mut held) = stream.take(alloc) else {
        return NO_RULE;
    };
    let status = push_piece(&mut held, octets, bits, number);
    stream.put(alloc, held);
    status
}

/// Adds bits to the block of a stream, unless they are too many.
fn push_piece(stream: &mut Stream, octets: &[u8], bits: u32, number: &mut usize) -> u32
    requires { IsBlock octets.now bits }
    ensures { PushesTo stream.old (block_in octets.now bits) bits result number.old number.new stream.new }
{
    if u64::from(stream.seen()) + u64::from(bits) > u64::from(MOST_BITS) {
        return TOO_LONG;
    }
    let verdict = stream.push(octets, bits);
    status_of_verdict(verdict, number)
}

/// Ends the block of a stream, which then holds no bits.
#[unsafe(no_mangle)]
pub extern "C" fn csn_stream_end(
    alloc: Global,
    stream: &mut StreamHandle,
    number: &mut usize,
) -> u32
    ensures ends { MatchOption stream.old.held ((result ≡ NO_RULE) × (stream.new.held ≡ None))
        (λ s. EndsTo s result number.old number.new stream.new.held) }
{
    let Some(mut held) = stream.take(alloc) else {
        return NO_RULE;
    };
    let judged = held.end();
    stream.put(alloc, held);
    status_of_judged(judged, number)
}

/// Frees what a stream holds, and leaves it empty.
#[unsafe(no_mangle)]
pub extern "C" fn csn_stream_free(alloc: Global, stream: &mut StreamHandle)
    ensures { stream.new.held ≡ None }
{
    match stream.take(alloc) {
        None => {}
        Some(held) => drop(held),
    }
}
