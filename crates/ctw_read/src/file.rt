ghost use Rattle.std.specs.Prelude.{◌≡◌, ◌<◌, ◌^◌, length};
ghost use Rattle.ctw_leb.specs.Calls.{Finds};
ghost use Rattle.ctw_form.specs.Read.{is_small as small, version_of as version_in, header_at, file_at};
ghost use Rattle.ctw_read.specs.Calls.{Reads};

use crate::fault::ReadFault;
use crate::sections::sections;
use ctw_form::{FormFault, FormKind};
use ctw_leb::Cursor;
use ctw_ops::What;
use std::alloc::Global;

/// The first four bytes of a file.
const MAGIC: [u8; 4] = [0x00, 0x61, 0x73, 0x6D];

/// The next four bytes of a plain module.
const PLAIN: [u8; 4] = [0x01, 0x00, 0x00, 0x00];

/// The next four bytes of a CT module.
const LABELLED: [u8; 4] = [0x01, 0x00, 0x43, 0x54];

/// The most bytes that a plain module may have.
const MOST_PLAIN_BYTES: u32 = 2_097_152;

/// Whether a version is that of CT modules, and not of plain ones.
fn version_of(bytes: &[u8]) -> Result<bool, FormKind>
    ensures { result ≡ version_in bytes.now }
{
    if bytes == PLAIN.as_slice() {
        return Ok(false);
    }
    if bytes == LABELLED.as_slice() {
        return Ok(true);
    }
    Err(FormKind::BadVersion)
}

/// The magic and the version.
#[tactic(auto, using(crate::proofs::Headers::header_ok, crate::proofs::Headers::header_version, crate::proofs::Headers::header_magic, crate::proofs::Headers::header_short))]
fn header(cursor: &mut Cursor) -> Result<bool, FormFault>
    ensures { Finds (λ ct. ct) result cursor.new (header_at cursor.old) }
{
    let place = cursor.place();
    let left = cursor.left();
    match cursor.take(8) {
        Ok(bytes) => {
            let (magic, version) = bytes.split_at(4);
            if magic != MAGIC.as_slice() {
                return Err(FormFault {
                    kind: FormKind::BadMagic,
                    place,
                });
            }
            match version_of(version) {
                Ok(ct) => Ok(ct),
                Err(kind) => Err(FormFault {
                    kind,
                    place: place + 4,
                }),
            }
        }
        Err(_) => Err(FormFault {
            kind: FormKind::Truncated,
            place: place + left,
        }),
    }
}

/// Whether a module may have so many bytes.
#[tactic(auto, unfolding(ctw_ops::specs::Limits::most_plain_bytes))]
fn is_small(ct: bool, size: usize) -> bool
    ensures { result ≡ small ct size }
{
    ct || size <= MOST_PLAIN_BYTES as usize
}

/// Whether the bytes spell a module, or the first fault. Takes linear time, and memory for the open blocks of one body.
pub fn check(alloc: Global, bytes: &[u8]) -> Result<(), ReadFault>
    requires { length bytes.now < 2 ^ 32 }
    ensures { Reads (λ u file. Unit {0}) result (file_at bytes.now) }
{
    let mut cursor = Cursor::new(bytes, 0);
    let ct = header(&mut cursor)?;
    if !is_small(ct, bytes.len()) {
        return Err(ReadFault::Bad {
            kind: FormKind::TooMany {
                what: What::Bytes,
                limit: MOST_PLAIN_BYTES,
            },
            place: 0,
        });
    }
    let seen = sections(alloc, ct, &mut cursor)?;
    if seen.owed > 0 {
        return Err(ReadFault::Bad {
            kind: FormKind::CountMismatch,
            place: bytes.len() as u32,
        });
    }
    Ok(())
}
