//! `reckon` reads a network as text from standard input and prints its least times, or the refusal.
#![tactic(auto)]

use anyhow::anyhow;
use kinds::{Changes, Kind, Seconds};
use network::{ARCS, Arc, EVENTS, Listing, MARKS, NetworkFault, TABLES, reckon};
use std::alloc::Global;
use std::env;
use std::fmt::Display;
use std::io::{BufRead, BufReader};
use std::str::FromStr;

mod text;

use text::{Entry, LineFault, entry_of, line_of};

// A network as it is read: the floors and the arcs up to the limits, and how many there were.
// Stays: the counts tell more than the lists' lengths, since what is past a limit is counted and not kept.
#[derive(Drop)]
struct Sheet<K> {
    floors: Vec<K>,
    events: usize,
    arcs: Vec<Arc<K>>,
    arc_count: usize,
}

impl<K: Kind + Clone + Display + FromStr> Sheet<K>
where
    K::Err: Drop,
{
    fn new(heap: Global) -> Self {
        Sheet {
            floors: Vec::new(heap),
            events: 0,
            arcs: Vec::new(heap),
            arc_count: 0,
        }
    }

    // Enters a line.
    fn enter(&mut self, line: &str) -> Result<(), LineFault> {
        match entry_of(line).ok_or(LineFault::Misread)? {
            Entry::Event { floor } => {
                if self.events < EVENTS {
                    self.floors.push(floor)?;
                }
                self.events = self.events.saturating_add(1);
            }
            Entry::Arc(arc) => {
                if self.arc_count < ARCS {
                    self.arcs.push(arc)?;
                }
                self.arc_count = self.arc_count.saturating_add(1);
            }
        }
        Ok(())
    }

    // Reckons the network and prints what is answered.
    fn answer(mut self, rt: &HostRuntime) -> anyhow::Result<()> {
        let heap = rt.alloc();
        let none = K::nothing();
        self.floors.resize(EVENTS, none)?;
        self.arcs.resize(
            ARCS,
            Arc {
                from: 0,
                to: 0,
                duration: none,
            },
        )?;
        let mut times = vec![in heap; none; EVENTS]?;
        let mut ring = vec![in heap; 0u16; EVENTS]?;
        let mut tables = vec![in heap; none; TABLES]?;
        let mut marks = vec![in heap; 0u16; MARKS]?;
        let listing = Listing {
            events: self.events,
            floors: self.floors.as_slice(),
            arc_count: self.arc_count,
            arcs: self.arcs.as_slice(),
        };
        match reckon(
            listing,
            times.as_mut_slice(),
            ring.as_mut_slice(),
            tables.as_mut_slice(),
            marks.as_mut_slice(),
        ) {
            Ok(()) => print_times(rt, self.events, times.as_slice()),
            Err(fault) => print_fault(rt, fault, ring.as_slice()),
        }
    }
}

fn print_times<K: Display>(rt: &HostRuntime, events: usize, times: &[K]) -> anyhow::Result<()> {
    for (event, time) in times.iter().take(events).enumerate() {
        println!(rt; "{event} {time}")?;
    }
    Ok(())
}

fn print_fault(rt: &HostRuntime, fault: NetworkFault, ring: &[u16]) -> anyhow::Result<()> {
    let number = fault.number();
    let place = fault.place();
    let layer = fault.layer();
    print!(rt; "refused {number} {layer} {place}")?;
    if let NetworkFault::Ring { count } = fault {
        print!(rt; " ring")?;
        for event in ring.iter().take(count) {
            print!(rt; " {event}")?;
        }
    }
    println!(rt; "")?;
    Ok(())
}

// The network in the kind of time that is chosen.
#[derive(Drop)]
enum Chosen {
    Seconds(Sheet<Seconds>),
    Changes(Sheet<Changes>),
}

// What a line chooses, where it is a kind's.
fn kind_of(heap: Global, line: &str) -> Option<Chosen> {
    let mut words = line.split_whitespace();
    match (words.next()?, words.next()?, words.next()) {
        ("kind", "seconds", None) => Some(Chosen::Seconds(Sheet::new(heap))),
        ("kind", "changes", None) => Some(Chosen::Changes(Sheet::new(heap))),
        _ => None,
    }
}

// Takes a line. Nothing is chosen as long as no line has been taken.
fn take(heap: Global, chosen: &mut Option<Chosen>, bytes: &[u8]) -> Result<(), LineFault> {
    let Some(line) = line_of(bytes)? else {
        return Ok(());
    };
    match chosen {
        None => {
            let kind = match kind_of(heap, line) {
                Some(kind) => kind,
                None => {
                    let mut sheet = Sheet::new(heap);
                    sheet.enter(line)?;
                    Chosen::Seconds(sheet)
                }
            };
            *chosen = Some(kind);
            Ok(())
        }
        Some(Chosen::Seconds(sheet)) => sheet.enter(line),
        Some(Chosen::Changes(sheet)) => sheet.enter(line),
    }
}

fn run(rt: &HostRuntime) -> anyhow::Result<()> {
    if env::args(rt)?.count() > 1 {
        return Err(anyhow!("usage: reckon < NETWORK"));
    }
    let heap = rt.alloc();
    let mut chosen = None;
    // Stays: no plainer as a zipped range, whose end would have to be named.
    let mut count = 0u64;
    for bytes in BufReader::new(heap, rt.stdin())?.split(heap, b'\n') {
        let bytes = bytes?;
        count = count.saturating_add(1);
        match take(heap, &mut chosen, bytes.as_slice()) {
            Ok(()) => {}
            Err(LineFault::Misread) => println!(rt; "misread {count}")?,
            Err(LineFault::Memory(e)) => return Err(e.into()),
        }
    }
    match chosen {
        None => Ok(()),
        Some(Chosen::Seconds(sheet)) => sheet.answer(rt),
        Some(Chosen::Changes(sheet)) => sheet.answer(rt),
    }
}

fn main(rt: HostRuntime) -> anyhow::Result<()> {
    run(&rt)
}
