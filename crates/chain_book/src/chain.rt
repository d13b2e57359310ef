// Chains in a lent slice of records: walked, lengthened and shortened in place.
//
// Record 0 is a head, so no chain ever goes on to it, and 0 marks the end of a chain. `free` is the first of the
// free records, which are chained too.
//
// It is a rule of the project that functions which take the lent slice do this work, and that a record is a partner and
// the number of the next one, of 16 bits each. So the end is a number, `walk` goes from number to number, `records` and
// `free` are passed on with the card and the partner, and what must hold of them, that u has a head and a chain, is asked
// by each function.
ghost use Rattle.std.specs.Prelude.{◌≡◌, ◌<◌, length};
ghost use Rattle.chain_book.specs.Records.{next_of, partner_of, chain};
ghost use Rattle.chain_book.specs.Steps.{Walkable, onward, stop, found, first_partner, pointed, spliced, cut, hung, unhung};

use super::record::Record;
use std::mem;

// the mark at the end of a chain
pub(crate) const END: u16 = 0;

// The record after which w belongs in u's chain: the last whose partner is below w, or u's head.
// Reads each record of the chain once, up to the first whose partner is not below w. Here and in `partner_from` numbers
// are widened by `as`, through which the check sees them: with `usize::from` the proofs did not close.
fn walk(records: &[Record], u: u16, w: u16) -> u16
    requires head { u < length records.now }
    requires runs { Walkable records.now u }
    ensures is { result ≡ stop records.now u w }
    ensures within { result < length records.now }
{
    let mut at = u;
    let mut next = records[at as usize].next;
    while next != END && records[next as usize].partner < w {
        at = next;
        next = records[at as usize].next;
    }
    at
}

// The lowest partner in u's chain that is not below w. Costs one walk.
pub(crate) fn partner_from(records: &[Record], u: u16, w: u16) -> Option<u16>
    requires head { u < length records.now }
    requires runs { Walkable records.now u }
    ensures { result ≡ first_partner (partner_of records.now) (onward (partner_of records.now) w (chain records.now u)) }
{
    let at = walk(records, u, w);
    match records[at as usize].next {
        END => None,
        next => Some(records[next as usize].partner),
    }
}

// Takes the first of the free records: `free` moves on to the next.
fn take_free(records: &[Record], free: &mut u16) -> u16
    requires { free.old < length records.now }
    ensures taken { result ≡ free.old }
    ensures free { free.new ≡ next_of records.now free.old }
{
    let next = records[usize::from(*free)].next;
    mem::replace(free, next)
}

// Makes the record `gone`, which no chain has, the first of the free ones.
fn give_back(records: &mut [Record], free: &mut u16, gone: u16)
    requires { gone < length records.old }
    ensures records { records.new ≡ pointed records.old gone free.old }
    ensures free { free.new ≡ gone }
{
    records[usize::from(gone)].next = mem::replace(free, gone);
}

// Has the record `fresh` hold w, and come right after the record `at`.
fn link_in(records: &mut [Record], at: u16, fresh: u16, w: u16)
    requires { (at < length records.old) × (fresh < length records.old) }
    ensures { records.new ≡ spliced records.old at fresh w }
{
    let next = records[usize::from(at)].next;
    records[usize::from(fresh)] = Record { partner: w, next };
    records[usize::from(at)].next = fresh;
}

// Takes the record after `at` out of its chain, and answers its number.
fn unlink(records: &mut [Record], at: u16) -> u16
    requires { (at < length records.old) × (next_of records.old at < length records.old) }
    ensures records { records.new ≡ cut records.old at }
    ensures gone { result ≡ next_of records.old at }
{
    let gone = records[usize::from(at)].next;
    records[usize::from(at)].next = records[usize::from(gone)].next;
    gone
}

// Hangs w into u's chain, where it belongs, in the first free record. Costs one walk.
pub(crate) fn insert(records: &mut [Record], free: &mut u16, u: u16, w: u16)
    requires head { u < length records.old }
    requires runs { Walkable records.old u }
    requires free { free.old < length records.old }
    ensures records { records.new ≡ hung records.old free.old u w }
    ensures free { free.new ≡ next_of records.old free.old }
{
    let at = walk(records, u, w);
    let fresh = take_free(records, free);
    link_in(records, at, fresh, w);
}

// Takes the record that holds w out of u's chain, and makes it the first free one. Costs one walk.
pub(crate) fn remove(records: &mut [Record], free: &mut u16, u: u16, w: u16)
    requires head { u < length records.old }
    requires runs { Walkable records.old u }
    requires held { found records.old u w < length records.old }
    ensures records { records.new ≡ unhung records.old free.old u w }
    ensures free { free.new ≡ found records.old u w }
{
    let at = walk(records, u, w);
    let gone = unlink(records, at);
    give_back(records, free, gone);
}
