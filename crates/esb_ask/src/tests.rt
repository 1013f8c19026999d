use super::*;
use esb_base::{Blob, FileName, List, Memory, PutFault, Shared, Text};
use std::alloc::Global;
use std::test::Fail;

/// Whether the first of two answers is kept and told.
fn keeps_the_first(alloc: Global) -> Result<bool, Memory> {
    let mut table = Table::new(alloc);
    let path = Text::of(alloc, "/w/a.txt")?;
    let first = table.put(Question::Kind(path.share()?), Answer::File)?;
    let second = table.put(Question::Kind(path.share()?), Answer::Missing)?;
    let other = table.get(&Question::Read(path.share()?)).is_none();
    let kept = matches!(table.get(&Question::Kind(path)), Some(Answer::File));
    let told = matches!(first, Answer::File) && matches!(second, Answer::File);
    Ok(told && kept && other && table.len() == 1 && !table.is_empty())
}

/// Whether contents are kept under the question that was asked.
fn keeps_contents(alloc: Global) -> Result<bool, Memory> {
    let mut table = Table::new(alloc);
    let asked = Question::Read(Text::of(alloc, "/w/a.txt")?);
    let contents = Blob::of(alloc, b"hi")?;
    if !asked.fits(&Answer::Missing) {
        return Ok(false);
    }
    let told = table.put(asked.share()?, Answer::Missing)?;
    let answer = Answer::Bytes(contents);
    let fits = asked.fits(&answer);
    let again = table.put(asked.share()?, Answer::Fault)?;
    Ok(fits && matches!(told, Answer::Missing) && matches!(again, Answer::Missing))
}

/// Whether tasks are told apart.
fn tells_tasks_apart(alloc: Global) -> Result<bool, Memory> {
    let namespace = Text::of(alloc, "file")?;
    let path = Text::of(alloc, "/w/a.txt")?;
    let load = Task::Load(FileName { namespace, path });
    let entry = Task::Entry(1);
    let left = Product::Entry(Resolved::Left);
    let same = load.is(&load.share()?) && entry.is(&Task::Entry(1));
    let apart = !load.is(&entry) && !entry.is(&Task::Entry(2));
    Ok(same && apart && entry.fits(&left) && !load.fits(&left))
}

#[test]
fn the_first_answer_is_kept(rt: HostRuntime) -> Result<(), Fail> {
    assert!(rt; keeps_the_first(rt.alloc())?);
    assert!(rt; keeps_contents(rt.alloc())?);
    Ok(())
}

#[test]
fn tasks_differ(rt: HostRuntime) -> Result<(), Fail> {
    assert!(rt; tells_tasks_apart(rt.alloc())?);
    Ok(())
}

/// Whether files that were not put are told once more.
fn tells_failures(alloc: Global) -> Result<bool, Memory> {
    let mut paths = List::new(alloc);
    paths.push((Text::of(alloc, "/w/out/a.txt")?, PutFault::Failed))?;
    let some = Failures::Paths(Shared::new(alloc, paths)?);
    let again = some.share()?;
    let all = Failures::All.share()?;
    let Failures::Paths(paths) = again else {
        return Ok(false);
    };
    Ok(paths.get().len() == 1 && matches!(all, Failures::All))
}

#[test]
fn failures_are_told(rt: HostRuntime) -> Result<(), Fail> {
    assert!(rt; tells_failures(rt.alloc())?);
    Ok(())
}
