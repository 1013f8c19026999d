use super::*;
use esb_base::Memory;
use std::alloc::Global;
use std::test::Fail;

/// Paths and their clean forms.
const CLEAN: [(&str, &str); 11] = [
    ("/w/./a//b/../c.js", "/w/a/c.js"),
    ("/../x", "/x"),
    ("", "/"),
    ("a", "/a"),
    ("//", "/"),
    ("/a/b/../../..", "/"),
    ("./a/.", "/a"),
    ("/a/b/", "/a/b"),
    ("/a/.../b", "/a/.../b"),
    ("/..a/b", "/..a/b"),
    ("/ä/. /b", "/ä/. /b"),
];

/// Folders, rests and what they are joined to.
const JOINED: [(&str, &str, &str); 5] = [
    ("/w", "../a", "/a"),
    ("/w", "/b/../c", "/c"),
    ("/w/x", "", "/w/x"),
    ("w", "./y", "/w/y"),
    ("/w", "../../..", "/"),
];

/// Folders, paths and the ways from the one to the other.
const WAYS: [(&str, &str, &str); 6] = [
    ("/w/out/x", "/w/out/c.js", "../c.js"),
    ("/w", "/w", ""),
    ("/w", "/w/a/b", "a/b"),
    ("/w/a", "/", "../.."),
    ("/ab/c", "/a/c", "../../a/c"),
    ("/a/b/c", "/a/d/e", "../../d/e"),
];

/// Paths and the folders that they are in.
const PARENTS: [(&str, &str); 4] = [("/w/a", "/w"), ("/", "/"), ("/a", "/"), ("/w/a/..", "/")];

fn cleans(alloc: Global, path: &str, wanted: &str) -> Result<bool, Memory> {
    Ok(clean(alloc, path)?.as_str() == wanted)
}

fn joins(alloc: Global, folder: &str, rest: &str, wanted: &str) -> Result<bool, Memory> {
    Ok(join(alloc, folder, rest)?.as_str() == wanted)
}

fn leads(alloc: Global, folder: &str, path: &str, wanted: &str) -> Result<bool, Memory> {
    Ok(relative(alloc, folder, path)?.as_str() == wanted)
}

fn stands_in(alloc: Global, path: &str, wanted: &str) -> Result<bool, Memory> {
    Ok(parent(alloc, path)?.as_str() == wanted)
}

#[test]
fn cleaned_paths(rt: HostRuntime) -> Result<(), Fail> {
    for (path, wanted) in CLEAN {
        assert!(rt; cleans(rt.alloc(), path, wanted)?, "{path}");
    }
    Ok(())
}

#[test]
fn joined_paths(rt: HostRuntime) -> Result<(), Fail> {
    for (folder, rest, wanted) in JOINED {
        assert!(rt; joins(rt.alloc(), folder, rest, wanted)?, "{folder} {rest}");
    }
    Ok(())
}

#[test]
fn ways_between_paths(rt: HostRuntime) -> Result<(), Fail> {
    for (folder, path, wanted) in WAYS {
        assert!(rt; leads(rt.alloc(), folder, path, wanted)?, "{folder} {path}");
    }
    Ok(())
}

#[test]
fn folders_of_paths(rt: HostRuntime) -> Result<(), Fail> {
    for (path, wanted) in PARENTS {
        assert!(rt; stands_in(rt.alloc(), path, wanted)?, "{path}");
    }
    Ok(())
}

#[test]
fn laws_can_be_called() {
    clean_paths();
    parents();
    relative_paths();
}
