// Fills a shelf of 1,024 slots in several orders of dates, and prints the levels of its tree and what its calls answer, as
// entries come in and after every third is voided. What is printed is compared with the file `stdout`.
//
// The modules other than `trial` are for tests of the calls on small shelves: where an entry goes, and what is at the edges.
#![tactic(auto)]

#[cfg(test)]
mod entries;
#[cfg(test)]
mod foreign;
#[cfg(test)]
mod keeping;
#[cfg(test)]
mod placing;
#[cfg(test)]
mod reading;
#[cfg(test)]
mod runs;
#[cfg(test)]
mod spans;
mod trial;

use machines::Operation;
use primitives::CHANGE;
use slots::Slot;
use slots::figures::level_at;
use std::{io, iter};
use trial::Trial;
use watches::{CellWatch, Sum};

const SLOTS: u16 = 1_024;

// The last day of the orders that have every day once.
const LAST_DAY: i32 = 1_023;

// The numbers of entries at which a line is printed.
const SIZES: [u16; 10] = [1, 2, 3, 7, 8, 100, 511, 512, 1_023, 1_024];

// The numbers that scrambled days are taken from: each gives the next by a linear congruence.
const MODULUS: u32 = 7_875;

const MULTIPLIER: u32 = 421;

const INCREMENT: u32 = 1_663;

// Every fourth entry changes a cell that is not watched.
fn operation(n: u16) -> Operation {
    Operation {
        code: CHANGE,
        place: if n % 4 == 0 { 1 } else { 0 },
        amount: 3 * n as i32 - 1_000,
    }
}

fn print_line(rt: &HostRuntime, shelf: &Trial<CellWatch>, n: u16) -> io::Result<()> {
    let levels = level_at(shelf.slots, shelf.root);
    let standing = shelf.count_up_to(LAST_DAY);
    let sum = shelf.figure_up_to(LAST_DAY);
    match (shelf.find(0), shelf.find(standing.saturating_sub(1))) {
        (Some(first), Some(last)) => {
            println!(rt; "{n:>7} {levels:>6} {standing:>8} {sum:>7} {first:>5} {last:>5}")
        }
        _ => println!(rt; "{n:>7} {levels:>6} {standing:>8} {sum:>7}  none  none"),
    }
}

// Adds an entry under each of the days, says which of them is refused, and prints a line at each of the sizes.
fn fill<I: Iterator<Item = i32> + Drop>(
    rt: &HostRuntime,
    shelf: &mut Trial<CellWatch>,
    days: I,
) -> io::Result<()>
    requires { I.can_next days }
{
    for (number, day) in (1..=SLOTS + 1).zip(days) {
        if shelf.add(day, operation(number)).is_none() {
            println!(rt; "entry {number} is refused")?;
        }
        if SIZES.contains(&number) {
            print_line(rt, shelf, number)?;
        }
    }
    Ok(())
}

fn void_every_third(shelf: &mut Trial<CellWatch>) {
    for n in (2..SLOTS).step_by(3) {
        shelf.void(n);
    }
}

fn print_answers(rt: &HostRuntime, shelf: &Trial<CellWatch>) -> io::Result<()> {
    for day in [-1, 0, 100, 500, 900, LAST_DAY] {
        let standing = shelf.count_up_to(day);
        let sum = shelf.figure_up_to(day);
        println!(rt; "up to day {day}: {standing} stand, sum {sum}")?;
    }
    for i in [0, 2, 511, 1_022, 1_023] {
        let standing = shelf.count_before(i);
        println!(rt; "before slot {i}: {standing} stand")?;
    }
    for k in [1, 100, 341, 682, 683] {
        match shelf.find(k) {
            Some(i) => println!(rt; "behind {k} others: {i}")?,
            None => println!(rt; "behind {k} others: none")?,
        }
    }
    Ok(())
}

// Prints what a shelf answers whose entries come in under these days, one after the other.
// Neither the slots nor the days take memory from the heap, so that only a write can fail.
fn print_order<I: Iterator<Item = i32> + Drop>(
    rt: &HostRuntime,
    name: &str,
    days: I,
    slots: &mut [Slot<Sum>],
    watch: CellWatch,
) -> io::Result<()>
    requires { I.can_next days }
{
    println!(rt; "{name}")?;
    println!(rt; "entries levels standing     sum first  last")?;
    slots.fill(Slot::blank());
    let mut shelf = Trial::new(watch, slots);
    fill(rt, &mut shelf, days)?;
    println!(rt; "every third entry voided")?;
    void_every_third(&mut shelf);
    print_line(rt, &shelf, SLOTS)?;
    print_answers(rt, &shelf)
}

fn next_number(number: u32) -> u32 {
    (number % MODULUS * MULTIPLIER + INCREMENT) % MODULUS
}

// From both ends in turn towards the middle.
fn zigzag_day(i: i32) -> i32 {
    if i % 2 == 0 { i / 2 } else { LAST_DAY - i / 2 }
}

fn main(rt: HostRuntime) -> io::Result<()> {
    let Some(watch) = CellWatch::new(0) else {
        return println!(rt; "a tally has no cell 0");
    };
    let mut slots = [Slot::<Sum>::blank(); SLOTS as usize];
    let scrambled = iter::successors(Some(next_number(1)), |number| Some(next_number(*number)));
    // Each order has more days than there are slots, so that an entry is refused.
    print_order(&rt, "rising", 0..=LAST_DAY + 1, &mut slots, watch)?;
    print_order(&rt, "falling", (-1..=LAST_DAY).rev(), &mut slots, watch)?;
    print_order(
        &rt,
        "zigzag",
        (0..=LAST_DAY + 1).map(zigzag_day),
        &mut slots,
        watch,
    )?;
    print_order(&rt, "equal", iter::repeat(500), &mut slots, watch)?;
    print_order(
        &rt,
        "scrambled",
        scrambled.map(|number| (number / 8) as i32),
        &mut slots,
        watch,
    )
}
