//! Command lines, and what they ask for.
use crate::read_words;
use std::alloc::Global;
use std::test::Fail;

/// Each line of words with what it asks for: the mode, the workers, the seed and the people.
static LINES: &str = "\
unicorn serve = Serve 4 1 1000
unicorn plain --seed 5 = Plain 4 5 1000
unicorn check --workers=64 --people 100000 = Check 64 1 100000
unicorn --seed 2147483646 --people=2 serve = Serve 4 2147483646 2
other plain --workers 1 = Plain 1 1 1000
unicorn plain --workers +7 = Plain 7 1 1000
unicorn -- check = Check 4 1 1000
unicorn bench --people 2 = Bench 4 1 2
unicorn = Usage
unicorn dance = Usage
unicorn Serve = Usage
unicorn serve plain = Usage
unicorn serve --workers 0 = Usage
unicorn serve --workers 65 = Usage
unicorn serve --workers -1 = Usage
unicorn serve --workers 1.5 = Usage
unicorn serve --seed 0 = Usage
unicorn serve --seed 2147483647 = Usage
unicorn serve --people 1 = Usage
unicorn serve --people 100001 = Usage
unicorn serve --seed = Usage
unicorn serve --seed 5 --seed 5 = Usage
unicorn serve --shards 2 = Usage
unicorn serve -w 2 = Usage
unicorn --help = Usage
unicorn serve -h = Usage
unicorn --version = Usage
unicorn help = Usage";

// What a list of words asks for, as it stands above.
fn asked(alloc: Global, words: &[String]) -> Result<String, Fail> {
    Ok(match read_words(alloc, words) {
        Ok(settings) => {
            let mode = settings.mode;
            let workers = settings.workers;
            let seed = settings.seed;
            let people = settings.people;
            format!(in alloc; "{mode:?} {workers} {seed} {people}")?
        }
        Err(refusal) => format!(in alloc; "{refusal:?}")?,
    })
}

fn split(alloc: Global, line: &str) -> Result<Vec<String>, Fail> {
    let mut words = Vec::new(alloc);
    for word in line.split(' ') {
        words.push(String::from_str(alloc, word)?)?;
    }
    Ok(words)
}

#[test]
fn lines_ask_for_settings(rt: HostRuntime) -> Result<(), Fail> {
    let alloc = rt.alloc();
    for line in LINES.lines() {
        let (words, expected) = line.split_once(" = ").ok_or("no row")?;
        let words = split(alloc, words)?;
        assert!(rt;
            asked(alloc, words.as_slice())?.as_str() == expected,
            "{line}"
        );
    }
    let none = Vec::new(alloc);
    assert!(rt; asked(alloc, none.as_slice())?.as_str() == "Usage");
    Ok(())
}
