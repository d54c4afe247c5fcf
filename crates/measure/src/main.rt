// Runs one of the ways to a listing, so that its instructions can be counted. The first argument
// says the rules: `one` for `a+`, `many` for 64 of these, both over bytes `a`; `trailing` for
// `.+/a*ca*` and `three` for three of these, over `ac` and then bytes `a`. The second one says the
// way, and a third one how many bytes there are, 1,024 if it is left out. Prints how many readings
// were met, and the sum of their heads. Without arguments it prints this for all rules and ways, by
// which the ways are compared.
#![tactic(auto)]

use places::Reading;
use scan::{RuleHeads, Start, Trace, Trails, first_reading, reading_after};
use source::Sheet;
use std::{env, io};
use table::{Loaded, Row, StartRows, Table, take_up};

const START: Start = Start {
    condition: 0,
    at_line_start: true,
};

#[derive(Clone, Copy)]
enum Rules {
    One,
    Many,
    Trailing,
    Three,
}

// Nothing, for what the program's start costs; only the pass; the first reading; the listing, with
// memory lent for each rule or for none; each ending by itself; and a call for each reading.
#[derive(Clone, Copy)]
enum Way {
    Nothing,
    Follow,
    First,
    Listing,
    Unlent,
    Endings,
    Calls,
}

// How many readings are met, and the sum of their heads.
#[derive(Clone, Copy, Default)]
struct Met {
    count: u64,
    heads: u64,
}

impl Met {
    fn with(self, reading: Reading) -> Met {
        Met {
            count: self.count.wrapping_add(1),
            heads: self.heads.wrapping_add(reading.head as u64),
        }
    }
}

fn loaded_of(rules: usize, rows: usize, trail: u16) -> Loaded {
    let mut loaded = Loaded::zeros();
    loaded.rule_count = rules.min(64);
    loaded.condition_count = 1;
    loaded.row_count = rows;
    loaded.starts[0] = StartRows {
        inside: 1,
        at_line_start: 1,
    };
    for rule in &mut loaded.rules[..rules.min(64)] {
        rule.trail = trail;
    }
    loaded
}

// Rules `a+`: from rows 1 and 2 `a` leads to row 2, which has their end marks.
fn plus(rules: usize, marks: u64) -> (Loaded, [Row; 5]) {
    let mut rows = [Row::zeros(); 5];
    rows[0].next[97] = 2;
    rows[1].next[97] = 2;
    rows[1].ends = marks;
    (loaded_of(rules, 2, 0), rows)
}

// Rules `.+/a*ca*`: in row 2 they have their slash mark, in row 3 their end mark too; the trailing
// part begins in row 4 and ends in row 5.
fn trailing(rules: usize, marks: u64) -> (Loaded, [Row; 5]) {
    let mut rows = [Row::zeros(); 5];
    rows[0].next = [2; 256];
    rows[0].next[10] = 0;
    rows[1].next = rows[0].next;
    rows[1].next[99] = 3;
    rows[2].next = rows[1].next;
    rows[2].next[97] = 3;
    rows[3].next[97] = 4;
    rows[3].next[99] = 5;
    rows[4].next[97] = 5;
    rows[1].slashes = marks;
    rows[2].slashes = marks;
    rows[2].ends = marks;
    rows[4].ends = marks;
    (loaded_of(rules, 5, 4), rows)
}

fn table_of(rules: Rules) -> (Loaded, [Row; 5]) {
    match rules {
        Rules::One => plus(1, 1),
        Rules::Many => plus(64, u64::MAX),
        Rules::Trailing => trailing(1, 1),
        Rules::Three => trailing(3, 7),
    }
}

fn bytes_of(rules: Rules) -> [u8; 1024] {
    let mut bytes = [b'a'; 1024];
    if matches!(rules, Rules::Trailing | Rules::Three) {
        bytes[1] = b'c';
    }
    bytes
}

// The listing, with memory lent for the heads of so many rules.
fn listed(trace: &Trace<Sheet>, lent: usize) -> Met {
    let mut heads = [RuleHeads::new(); 3];
    let mut trails = Trails::new();
    let mut met = Met::default();
    for reading in trace.readings(&mut heads[..lent.min(3)], &mut trails) {
        met = met.with(reading);
    }
    met
}

// The same from one ending to the next.
fn endings(trace: &Trace<Sheet>) -> Met {
    let mut met = Met::default();
    let mut next = trace.first();
    for _ in 0..100_000 {
        let Some(ending) = next else {
            break;
        };
        met = met.with(ending.reading());
        next = ending.behind();
    }
    trace.single().map_or(met, |reading| met.with(reading))
}

// The same by a call, and so a pass over the bytes, for each reading.
fn calls(table: &Table, text: &Sheet) -> Met {
    let mut met = Met::default();
    let mut last = first_reading(table, START, text);
    for _ in 0..100_000 {
        let Some(reading) = last else {
            break;
        };
        met = met.with(reading);
        last = reading_after(table, START, text, reading.rule, reading.total);
    }
    met
}

fn first(trace: &Trace<Sheet>) -> Met {
    match trace.first() {
        Some(ending) => Met::default().with(ending.reading()),
        None => Met::default(),
    }
}

fn traced(trace: &Trace<Sheet>, way: Way) -> Met {
    match way {
        Way::First => first(trace),
        Way::Listing => listed(trace, 3),
        Way::Unlent => listed(trace, 0),
        Way::Endings => endings(trace),
        _ => Met {
            count: trace.live() as u64,
            heads: 0,
        },
    }
}

fn met_by(way: Way, table: &Table, text: &Sheet) -> Met {
    match way {
        Way::Nothing => Met::default(),
        Way::Calls => calls(table, text),
        _ => {
            let mut rows = [0; 1024];
            traced(&Trace::follow(table, START, text, &mut rows), way)
        }
    }
}

fn run(rules: Rules, way: Way, most: usize) -> Met {
    let (loaded, rows) = table_of(rules);
    let bytes = bytes_of(rules);
    let text = Sheet::new(&bytes[..most.min(1024)], 0);
    met_by(way, &take_up(&loaded, &rows), &text)
}

fn rules_of(word: &str) -> Rules {
    match word {
        "many" => Rules::Many,
        "trailing" => Rules::Trailing,
        "three" => Rules::Three,
        _ => Rules::One,
    }
}

fn way_of(word: &str) -> Way {
    match word {
        "nothing" => Way::Nothing,
        "follow" => Way::Follow,
        "first" => Way::First,
        "unlent" => Way::Unlent,
        "endings" => Way::Endings,
        "calls" => Way::Calls,
        _ => Way::Listing,
    }
}

// All rules, at this many bytes, by all ways to a listing.
fn compared(rt: &HostRuntime, most: usize) -> io::Result<()> {
    for rules in ["one", "many", "trailing", "three"] {
        for way in ["follow", "first", "listing", "unlent", "endings", "calls"] {
            let met = run(rules_of(rules), way_of(way), most);
            println!(rt; "{rules} {way} {most}: {} {}", met.count, met.heads)?;
        }
    }
    Ok(())
}

fn main(rt: HostRuntime) -> io::Result<()> {
    let mut words = env::args(&rt)?.skip(1);
    let Some(rules) = words.next() else {
        compared(&rt, 5)?;
        return compared(&rt, 1024);
    };
    let way = words.next();
    let most = words
        .next()
        .and_then(|word| word.parse::<usize>().ok())
        .unwrap_or(1024);
    let way = way_of(way.as_ref().map_or("", |word| word.as_str()));
    let met = run(rules_of(rules.as_str()), way, most);
    println!(rt; "{} {}", met.count, met.heads)
}
