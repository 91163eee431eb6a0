//! The tenants: one for each client.
use std::alloc::AllocError;

/// The most clients of a schedule.
pub const PEERS_LIMIT: usize = 6;

/// The letters of the numbers of tenants.
const LETTERS: &[u8; PEERS_LIMIT] = b"012345";

/// Writes the name of a tenant. It has 32 bytes, so that a commit of the journal is soon full.
pub fn write_name(text: &mut Vec<u8>, tenant: usize) -> Result<(), AllocError> {
    text.extend_from_slice(b"a.tenant.whose.name.is.so.long.")?;
    text.push(LETTERS.get(tenant).copied().unwrap_or(b'x'))?;
    Ok(())
}

/// Writes the table of the tenants that are there. The token of each is `abc`.
pub fn write_table(text: &mut Vec<u8>, there: &[bool; PEERS_LIMIT]) -> Result<(), AllocError> {
    for (tenant, is_there) in there.iter().enumerate() {
        if *is_there {
            text.extend_from_slice(b"[\"")?;
            write_name(text, tenant)?;
            text.extend_from_slice(
                b"\"]\nsha256 = \"ba7816bf8f01cfea414140de5dae2223b00361a396177a9cb410ff61f20015ad\"\n",
            )?;
            text.extend_from_slice(b"quota = 1000\n")?;
        }
    }
    Ok(())
}
