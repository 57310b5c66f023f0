//! Writing into a file in memory, within the memory that it has.
ghost use Rattle.std.specs.Prelude.{◌≡◌, ◌≤◌, ◌+◌, ◌-◌, ◌++◌, length, replicate, vec_len, vec_capacity};
ghost use Rattle.disk_model.specs.Disk.{written};

/// Writes over what is there and past the end. A gap after the old end is filled with zeros.
#[tactic(auto, using(crate::proofs::Placing::placing))]
pub(crate) fn place(file: &mut Vec<u8>, at: usize, piece: &[u8])
    requires { at + length piece.now ≤ vec_capacity file.old }
    ensures items { file.new.items ≡ written at piece.now file.old.items }
    ensures capacity { vec_capacity file.old ≤ vec_capacity file.new }
{
    fill_to(file, at);
    let over = piece.len().min(file.len() - at);
    file[at..at + over].copy_from_slice(&piece[..over]);
    file.extend_from_slice(&piece[over..]).unwrap();
}

/// Adds zeros up to a length.
pub(crate) fn fill_to(file: &mut Vec<u8>, len: usize)
    requires { len ≤ vec_capacity file.old }
    ensures items { file.new.items ≡ file.old.items ++ replicate (len - vec_len file.old) 0 }
    ensures capacity { vec_capacity file.old ≤ vec_capacity file.new }
{
    let missing = len.saturating_sub(file.len());
    for _ in 0..missing {
        file.push(0).unwrap();
    }
}
