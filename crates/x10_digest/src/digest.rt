//! The digest by which a log names its image.
ghost use Rattle.std.specs.Prelude.{◌↔◌, IsTrue};
ghost use Rattle.x10_digest.specs.Digests.{IsDigest};

use sha2::{Digest, Sha256};

/// The SHA-256 of bytes. Linear in their number.
pub fn digest_of(bytes: &[u8]) -> [u8; 32]
    ensures { IsDigest bytes.now result }
{
    Sha256::digest(bytes)
}

/// Whether these are the 32 bytes of the digest.
pub fn is_digest_of(bytes: &[u8], digest: &[u8; 32]) -> bool
    ensures { IsTrue result ↔ IsDigest bytes.now digest.now }
{
    digest_of(bytes) == *digest
}
