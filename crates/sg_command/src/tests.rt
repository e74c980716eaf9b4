// The words of the command line against the jobs that they ask for.
use crate::{Job, command, one_job, usage};
use std::alloc::{AllocError, Global};
use std::test::Fail;

fn words_of(alloc: Global, words: &[&str]) -> Result<Vec<String>, AllocError> {
    let mut all = Vec::new(alloc);
    for word in words {
        all.push(String::from_str(alloc, word)?)?;
    }
    Ok(all)
}

// The job that the words ask for, as a text.
fn told(alloc: Global, words: &[&str]) -> Result<String, AllocError> {
    let words = words_of(alloc, words)?;
    match command(alloc, words.as_slice())? {
        None => String::from_str(alloc, "none"),
        Some(Job::Run) => String::from_str(alloc, "run"),
        Some(Job::Replay { turns }) => {
            let turns = turns.as_slice();
            format!(in alloc; "{turns:?}")
        }
        Some(Job::Gen { seed, size }) => format!(in alloc; "{seed} and {size}"),
    }
}

#[test]
fn each_command(rt: HostRuntime) -> Result<(), Fail> {
    let rows: [(&[&str], &str); 61] = [
        (&["run"], "run"),
        (&["replay", "0"], "[0]"),
        (&["replay", "9"], "[9]"),
        (&["replay", "10"], "[10]"),
        (&["replay", "63"], "[63]"),
        (&["replay", "0,63,7,0,19"], "[0, 63, 7, 0, 19]"),
        (&["replay", "1,2,3"], "[1, 2, 3]"),
        (&[], "none"),
        (&[""], "none"),
        (&["Run"], "none"),
        (&["run "], "none"),
        (&["runs"], "none"),
        (&["run", "now"], "none"),
        (&["run", "run"], "none"),
        (&["run", "1"], "none"),
        (&["1"], "none"),
        (&["replay"], "none"),
        (&["replay", ""], "none"),
        (&["replay", ","], "none"),
        (&["replay", "0,"], "none"),
        (&["replay", ",0"], "none"),
        (&["replay", "0,,1"], "none"),
        (&["replay", "00"], "none"),
        (&["replay", "01"], "none"),
        (&["replay", "1,00"], "none"),
        (&["replay", "64"], "none"),
        (&["replay", "1,64,2"], "none"),
        (&["replay", "100"], "none"),
        (&["replay", "063"], "none"),
        (&["replay", "+1"], "none"),
        (&["replay", "-1"], "none"),
        (&["replay", "1, 2"], "none"),
        (&["replay", "1;2"], "none"),
        (&["replay", "a"], "none"),
        (&["replay", "1", "2"], "none"),
        (&["replay", "1,2", "3"], "none"),
        (&["1,2", "replay"], "none"),
        (&["gen", "7", "20000"], "7 and 20000"),
        (&["gen", "0", "24"], "0 and 24"),
        (
            &["gen", "18446744073709551615", "80000"],
            "18446744073709551615 and 80000",
        ),
        (&["gen", "24", "79999"], "24 and 79999"),
        (&["gen"], "none"),
        (&["gen", "7"], "none"),
        (&["gen", "7", "24", "24"], "none"),
        (&["Gen", "7", "24"], "none"),
        (&["7", "gen", "24"], "none"),
        (&["gen", "7", "23"], "none"),
        (&["gen", "7", "80001"], "none"),
        (&["gen", "7", "0"], "none"),
        (&["gen", "18446744073709551616", "24"], "none"),
        (&["gen", "7", "4294967320"], "none"),
        (
            &["gen", "7", "99999999999999999999999999999999999999999"],
            "none",
        ),
        (&["gen", "07", "24"], "none"),
        (&["gen", "7", "024"], "none"),
        (&["gen", "00", "24"], "none"),
        (&["gen", "+7", "24"], "none"),
        (&["gen", "-7", "24"], "none"),
        (&["gen", "7", " 24"], "none"),
        (&["gen", "", "24"], "none"),
        (&["gen", "7", ""], "none"),
        (&["gen", "7a", "24"], "none"),
    ];
    for (words, want) in rows {
        assert_eq!(rt; told(rt.alloc(), words)?.as_str(), want, "at {words:?}");
    }
    Ok(())
}

// So many numbers, 0 to 63 and again.
fn list_of(alloc: Global, count: u32) -> Result<String, AllocError> {
    let mut list = String::new(alloc);
    for at in 0..count {
        if at > 0 {
            list.push(',')?;
        }
        let number = at % 64;
        write!(list, "{number}")?;
    }
    Ok(list)
}

#[test]
fn longest_list(rt: HostRuntime) -> Result<(), Fail> {
    let mut words = words_of(rt.alloc(), &["replay"])?;
    words.push(list_of(rt.alloc(), 65_536)?)?;
    match command(rt.alloc(), words.as_slice())? {
        Some(Job::Replay { turns }) => {
            let turns = turns.as_slice();
            assert_eq!(rt; turns.len(), 65_536);
            assert_eq!(rt; turns.first(), Some(&0));
            assert_eq!(rt; turns.get(200), Some(&8));
            assert_eq!(rt; turns.last(), Some(&63));
        }
        _ => return Err("a list".into()),
    }
    words.pop();
    words.push(list_of(rt.alloc(), 65_537)?)?;
    assert!(rt; command(rt.alloc(), words.as_slice())?.is_none());
    Ok(())
}

#[test]
fn usage_of_each(rt: HostRuntime) {
    one_job();
    assert_eq!(rt;
        usage(),
        b"usage: sgenlab run\nusage: sgenlab replay N,N,N\nusage: sgenlab gen SEED SIZE\n".as_slice()
    );
}
