// Finds a tight group of cards in text from standard input.
//
// The first line is `n p q`: the number of cards, from 1 to 1,024, and the tolerance p/q. Each line after
// it is a link `u v` of two cards, numbered from 0. Numbers are decimal, with one space between two of
// them and nothing else on the line. A line ends with a newline, or with a carriage return and a newline;
// the last may end with the text.
//
// A link that the book refuses is told of with the number of its line, its ends, and the refusal by number
// and in words, and the reading goes on. Then come the number of links held, the group's counts, and its
// cards in ascending order:
//
//     line 9: 3 3 refused 2: both ends are one card
//     links 10
//     group 4 cards, 6 links, 2 peels
//     0 1 2 3
//
// A line that does not read, a setup that is refused, and trouble with the input or the output end the
// program with status 1 and a message on standard error. Nothing is guessed: no group is told of then.
#![tactic(auto)]

mod found;
mod trouble;

ghost use Rattle.std.specs.Prelude.{◌≡◌, length, IfErr, IfOk};
ghost use Rattle.std.specs.Result.{result_err};
ghost use Rattle.link_text.specs.Lines.{link_in, setup_in};
ghost use Rattle.findgroup.specs.Steps.{IsFirstUnread, IsUnwritten, setup_read, setup_refusal, after_line, Goes};

use bit_book::{BitBook, check};
use books::{ReadingBook, Refusal, WritingBook};
use found::{Cards, group_of};
use link_text::{Setup, read_link, read_setup};
use peel::Tolerance;
use std::io::{self, BufRead, BufReader, Lines, Stdin};
use std::process::ExitCode;
use trouble::Trouble;

// Enough for the bits of 1,024 cards. It is fixed, as the list for the group is, so that neither can run out.
const MEMORY: usize = 65_472;

type Input = Lines<BufReader<Stdin>>;

fn main(rt: HostRuntime) -> ExitCode {
    match run(&rt) {
        Ok(()) => ExitCode::SUCCESS,
        Err(trouble) => {
            let _ = eprintln!(rt; "findgroup: {trouble}");
            ExitCode::FAILURE
        }
    }
}

fn run(rt: &HostRuntime) -> Result<(), Trouble> {
    let mut lines = input(rt)?;
    let setup = first_line(&mut lines)?;
    let mut memory = [0u8; MEMORY];
    let tolerance = suited(setup, &memory)?;
    let book = BitBook::new(setup.cards, &mut memory);
    find(rt, lines, book, tolerance)
}

// The lines of standard input. Where there is no memory for them, the first cannot be read.
fn input(rt: &HostRuntime) -> Result<Input, Trouble>
    ensures { IfErr result IsFirstUnread }
{
    BufReader::new(rt.alloc(), rt.stdin())
        .map(|reader| reader.lines(rt.alloc()))
        .map_err(first_unread)
}

// The setup. An input without a line reads as an empty one.
fn first_line(lines: &mut Input) -> Result<Setup, Trouble> {
    let line = lines.next().transpose().map_err(first_unread)?;
    setup_of(line.as_deref().unwrap_or_default().as_bytes())
}

// The trouble that the first line cannot be read.
fn first_unread(error: io::Error) -> Trouble
    ensures { result ≡ Trouble.Input 1 error }
{
    Trouble::Input { line: 1, error }
}

// The setup that the line is, or what is wrong with it.
fn setup_of(line: &[u8]) -> Result<Setup, Trouble>
    ensures { result ≡ setup_read (setup_in line.now) }
{
    read_setup(line).map_err(Trouble::BadSetup)
}

// The tolerance, where a book of so many cards can stand on the memory and the tolerance keeps its rule.
fn suited(setup: Setup, memory: &[u8]) -> Result<Tolerance, Refusal>
    ensures answer { result_err result ≡ setup_refusal setup (length memory.now) }
    ensures value { IfOk result (λ t. (t.p ≡ setup.p) × (t.q ≡ setup.q)) }
{
    check(setup.cards, memory)?;
    Tolerance::new(setup.p, setup.q)
}

// Puts the links in, and tells of the group. `rt` stands for the machine, and goes to whatever reads or prints.
fn find<B: WritingBook + Drop>(
    rt: &HostRuntime,
    lines: Input,
    mut book: B,
    tolerance: Tolerance,
) -> Result<(), Trouble> {
    put_all(rt, lines, &mut book)?;
    let mut list = [0u16; 1024];
    let group = group_of(&book, tolerance, &mut list);
    println!(rt; "links {}", book.links())?;
    println!(rt;
        "group {} cards, {} links, {} peels",
        group.cards, group.links, group.peels
    )?;
    println!(rt; "{}", Cards(&list[..usize::from(group.cards)]))?;
    Ok(())
}

// Puts the link of each line in. The first link stands on the second line.
fn put_all<B: WritingBook>(rt: &HostRuntime, lines: Input, book: &mut B) -> Result<(), Trouble> {
    let mut line: u64 = 1;
    for read in lines {
        // counted by hand, for a range to zip with would end, and the reading with it
        line = line.saturating_add(1);
        let text = read.map_err(|error| Trouble::Input { line, error })?;
        put_line(rt, line, text.as_bytes(), book)?;
    }
    Ok(())
}

// Puts the link of the line of that number in, or tells why it is refused.
fn put_line<B: WritingBook>(
    rt: &HostRuntime,
    line: u64,
    text: &[u8],
    book: &mut B,
) -> Result<(), Trouble>
    ensures links { B.graph book.new ≡ after_line (B.graph book.old) (B.room book.old) text.now }
    ensures places { B.room book.new ≡ B.room book.old }
    ensures answer { Goes line (B.graph book.old) (B.room book.old) (link_in text.now) result }
    ensures output { IfOk (link_in text.now) (λ _. IfErr result IsUnwritten) }
{
    let (u, v) = read_link(text).map_err(|fault| Trouble::BadLink { line, fault })?;
    if let Err(refusal) = book.put(u, v) {
        println!(rt;
            "line {line}: {u} {v} refused {}: {refusal}",
            refusal.number()
        )?;
    }
    Ok(())
}
