//! The names of a client's files, and the TRNUIDs of what they ask.

ghost use Rattle.std.specs.Prelude.{◌≡◌, ◌≤◌, ◌∷◌, ◌++◌, IfOk, OnOk};
ghost use Rattle.std.specs.Fmt.{decimal};
ghost use Rattle.client_saved.specs.Bounds.{IsName};
ghost use Rattle.client_core.specs.Making.{file_name, deed_name};

use ofx_types::{FileUid, OutOfMemory, Text, TrnUid};
use ofx_values::print_number;
use std::alloc::Global;

/// Appends a dash and a number.
fn put_part(number: u64, out: &mut Vec<u8>) -> Result<(), OutOfMemory>
    ensures { OnOk result (out.new.items ≡ out.old.items ++ 45 ∷ decimal number) }
{
    out.push(b'-')?;
    print_number(number, out)
}

/// The bytes of a file's name.
#[tactic(auto, unfolding(crate::specs::Making::file_name))]
fn file_name(alloc: Global, name: &Text, number: u64) -> Result<Vec<u8>, OutOfMemory>
    ensures { IfOk result (λ bytes. bytes.items ≡ file_name name.now number) }
{
    let mut bytes = Vec::from_slice(alloc, name.as_bytes())?;
    put_part(number, &mut bytes)?;
    Ok(bytes)
}

/// The bytes of the TRNUID with an index in a file.
#[tactic(auto, unfolding(crate::specs::Making::deed_name))]
fn deed_name(alloc: Global, name: &Text, number: u64, index: u64) -> Result<Vec<u8>, OutOfMemory>
    ensures { IfOk result (λ bytes. bytes.items ≡ deed_name name.now number index) }
{
    let mut bytes = file_name(alloc, name, number)?;
    put_part(index, &mut bytes)?;
    Ok(bytes)
}

/// The name of a client's file of a number.
pub(crate) fn file_uid(alloc: Global, name: &Text, number: u64) -> Result<FileUid, OutOfMemory>
    requires name { IsName name.now }
    requires number { number ≤ 9999999999 }
    ensures { IfOk result (λ uid. uid ≡ file_name name.now number) }
{
    let bytes = file_name(alloc, name, number)?;
    match FileUid::new(&bytes) {
        Ok(uid) => Ok(uid),
        Err(_) => unreachable!(),
    }
}

/// The TRNUID with an index in a client's file of a number.
pub(crate) fn deed_uid(
    alloc: Global,
    name: &Text,
    number: u64,
    index: u64,
) -> Result<TrnUid, OutOfMemory>
    requires name { IsName name.now }
    requires number { number ≤ 9999999999 }
    requires index { index ≤ 9 }
    ensures { IfOk result (λ uid. uid ≡ deed_name name.now number index) }
{
    let bytes = deed_name(alloc, name, number, index)?;
    match TrnUid::new(&bytes) {
        Ok(uid) => Ok(uid),
        Err(_) => unreachable!(),
    }
}
