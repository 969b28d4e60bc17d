//! A trace folder of the system: what its files have, and what isn't written to.
use dspec_ctf_sink::{Folder, FolderFault, Identity, SystemFolder};
use std::os::unix::fs::symlink;
use std::test::Fail;
use std::{fs, process};

/// The numbers that Linux gives a path to nothing, ENOENT, and a file that is there, EEXIST.
const NO_FILE: i32 = 2;

const THERE: i32 = 17;

/// A path of this test's own, where nothing stands.
pub(crate) fn free_path(rt: &HostRuntime, test: &str) -> Result<String, Fail> {
    let id = process::id(rt.process());
    let path = format!(in rt.alloc(); "/tmp/test_lanes_{test}_{id}")?;
    let _ = fs::remove_dir_all(rt, path.as_str());
    Ok(path)
}

/// Whether a file of the folder of that path has this text.
fn has(rt: &HostRuntime, folder: &str, name: &str, text: &str) -> Result<bool, Fail> {
    let path = format!(in rt.alloc(); "{folder}/{name}")?;
    let found = fs::read_to_string(rt, path.as_str())?;
    Ok(found.as_str() == text)
}

#[test]
fn bytes_after_bytes(rt: HostRuntime) -> Result<(), Fail> {
    let path = free_path(&rt, "bytes_after_bytes")?;
    let mut folder = SystemFolder::new(&rt, path.as_str())?;
    folder.add(rt.alloc(), "metadata", b"text")?;
    folder.add(rt.alloc(), "cpu_0", b"one")?;
    folder.add(rt.alloc(), "cpu_10", b"other")?;
    folder.add(rt.alloc(), "cpu_0", b", two")?;
    assert!(rt; has(&rt, path.as_str(), "metadata", "text")?);
    assert!(rt; has(&rt, path.as_str(), "cpu_0", "one, two")?);
    assert!(rt; has(&rt, path.as_str(), "cpu_10", "other")?);
    fs::remove_dir_all(&rt, path.as_str())?;
    Ok(())
}

/// A folder that is there is taken where it is empty, and one with a file isn't; nor is a file.
#[test]
fn an_empty_folder_is_taken(rt: HostRuntime) -> Result<(), Fail> {
    let path = free_path(&rt, "an_empty_folder_is_taken")?;
    fs::create_dir(&rt, path.as_str())?;
    let mut folder = SystemFolder::new(&rt, path.as_str())?;
    folder.add(rt.alloc(), "metadata", b"text")?;
    let refused = SystemFolder::new(&rt, path.as_str()).err();
    assert!(rt; refused == Some(FolderFault::NotEmpty));
    let file = format!(in rt.alloc(); "{path}/metadata")?;
    let refused = SystemFolder::new(&rt, file.as_str()).err();
    assert!(rt; refused == Some(FolderFault::Read));
    let below = format!(in rt.alloc(); "{path}/no/folder")?;
    let refused = SystemFolder::new(&rt, below.as_str()).err();
    assert!(rt; refused == Some(FolderFault::Write(NO_FILE)));
    fs::remove_dir_all(&rt, path.as_str())?;
    Ok(())
}

/// Where a link of a file's name was put into the folder, the write is refused, and what the link leads to is as it was.
#[test]
fn a_planted_link_is_not_followed(rt: HostRuntime) -> Result<(), Fail> {
    let path = free_path(&rt, "a_planted_link_is_not_followed")?;
    let mut folder = SystemFolder::new(&rt, path.as_str())?;
    let victim = format!(in rt.alloc(); "{path}/victim")?;
    fs::write(&rt, victim.as_str(), "precious")?;
    let link = format!(in rt.alloc(); "{path}/cpu_0")?;
    symlink(&rt, victim.as_str(), link.as_str())?;
    let refused = Err(FolderFault::Write(THERE));
    assert!(rt; folder.add(rt.alloc(), "cpu_0", b"bytes") == refused);
    assert!(rt; folder.add(rt.alloc(), "victim", b"bytes") == refused);
    assert!(rt; has(&rt, path.as_str(), "victim", "precious")?);
    fs::remove_dir_all(&rt, path.as_str())?;
    Ok(())
}

/// Where the folder is moved away and another put in its place, all files stand in the one that was taken.
#[test]
fn another_folder_gets_nothing(rt: HostRuntime) -> Result<(), Fail> {
    let path = free_path(&rt, "another_folder_gets_nothing")?;
    let moved = format!(in rt.alloc(); "{path}_moved")?;
    let mut folder = SystemFolder::new(&rt, path.as_str())?;
    folder.add(rt.alloc(), "metadata", b"text")?;
    fs::rename(&rt, path.as_str(), moved.as_str())?;
    fs::create_dir(&rt, path.as_str())?;
    folder.add(rt.alloc(), "metadata", b" and more")?;
    folder.add(rt.alloc(), "cpu_0", b"bytes")?;
    assert!(rt; has(&rt, moved.as_str(), "metadata", "text and more")?);
    assert!(rt; has(&rt, moved.as_str(), "cpu_0", "bytes")?);
    assert!(rt; fs::read_dir(&rt, path.as_str())?.next().is_none());
    fs::remove_dir_all(&rt, path.as_str())?;
    fs::remove_dir_all(&rt, moved.as_str())?;
    Ok(())
}

/// After writes that are refused, as where a file may be so long only, the file has those that were taken, each whole.
#[test]
fn whole_writes_alone(rt: HostRuntime) -> Result<(), Fail> {
    let path = free_path(&rt, "whole_writes_alone")?;
    let mut folder = SystemFolder::new(&rt, path.as_str())?;
    let mut due = String::new(rt.alloc());
    for _ in 0..50 {
        if folder
            .add(rt.alloc(), "cpu_0", b"nineteen bytes each")
            .is_ok()
        {
            due.push_str("nineteen bytes each")?;
        }
    }
    assert!(rt; has(&rt, path.as_str(), "cpu_0", due.as_str())?);
    fs::remove_dir_all(&rt, path.as_str())?;
    Ok(())
}

/// Room is a hidden file of a page for each CPU, which is gone where it was given back; it is kept once at a time, and files are written beside it.
#[test]
fn room_is_given_back(rt: HostRuntime) -> Result<(), Fail> {
    let path = free_path(&rt, "room_is_given_back")?;
    let mut folder = SystemFolder::new(&rt, path.as_str())?;
    let hidden = format!(in rt.alloc(); "{path}/.room")?;
    let room = folder.keep_room(2)?;
    assert!(rt; fs::metadata(&rt, hidden.as_str())?.len() == 8192);
    let refused = folder.keep_room(1).err();
    assert!(rt; refused == Some(FolderFault::Write(THERE)));
    folder.add(rt.alloc(), "cpu_0", b"bytes")?;
    room.give_back()?;
    assert!(rt; fs::metadata(&rt, hidden.as_str()).is_err());
    assert!(rt; has(&rt, path.as_str(), "cpu_0", "bytes")?);
    fs::remove_dir_all(&rt, path.as_str())?;
    Ok(())
}

/// Each reading of who a process is has a uuid of its own, which isn't zeros.
#[test]
fn a_uuid_is_one_trace_s_alone(rt: HostRuntime) -> Result<(), Fail> {
    let (one, other) = (Identity::of_system(&rt)?, Identity::of_system(&rt)?);
    let (first, second) = (one.origin("one").uuid, other.origin("other").uuid);
    assert!(rt; first != [0; 16] && first != second);
    Ok(())
}
