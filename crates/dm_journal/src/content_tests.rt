ghost use Rattle.std.specs.Prelude.{◌<◌, ◌^◌, length};

use crate::{ContentFault, JournalContent, read_content};
use dm_target::Target;
use std::alloc::{AllocError, Global};
use std::test::Fail;

/// Two records of 250 and 101 bytes, and a byte behind them.
const BYTES: &[u8; 352] = b"\
-- dm 0000000233
BEGIN;
REPLACE INTO `dm_meta`.`state` (`name`,`text`) VALUES ('lock `m`.`t`','{\"order\":[],\"version\":1}');
REPLACE INTO `dm_meta`.`state` (`name`,`text`) VALUES ('shard a `s`.`t0`','{\"position\":0,\"version\":1,\"window\":1000}');
COMMIT;
-- dm 0000000084
CREATE TABLE `m`.`t` (`id` INT NOT NULL, `v` VARCHAR(20) NULL, PRIMARY KEY (`id`));
x";

/// How many bytes are whole records, or where there is a bad one.
fn whole_of(alloc: Global, bytes: &[u8]) -> Result<u32, ContentFault>
    requires { length bytes.now < 2 ^ 32 }
{
    Ok(read_content(alloc, bytes)?.whole)
}

/// How many tables there are, and how many texts.
fn counts(alloc: Global, read: &JournalContent) -> Result<(usize, usize), AllocError> {
    let tables = read.target.tables(alloc)?.len();
    let texts = read.target.metas(alloc)?.len();
    Ok((tables, texts))
}

fn counts_of(alloc: Global, bytes: &[u8]) -> Result<(usize, usize), ContentFault>
    requires { length bytes.now < 2 ^ 32 }
{
    let read = read_content(alloc, bytes)?;
    Ok(counts(alloc, &read)?)
}

#[test]
fn no_bytes_hold_nothing(rt: HostRuntime) {
    assert_eq!(rt; whole_of(rt.alloc(), b""), Ok(0));
}

#[test]
fn other_bytes_are_bad(rt: HostRuntime) {
    assert_eq!(rt;
        whole_of(rt.alloc(), b"hello"),
        Err(ContentFault::Bad { at: 0 })
    );
}

#[test]
fn records_lead_to_what_they_say(rt: HostRuntime) {
    assert_eq!(rt; whole_of(rt.alloc(), &BYTES[..351]), Ok(351));
    assert_eq!(rt; counts_of(rt.alloc(), &BYTES[..351]), Ok((1, 2)));
}

#[test]
fn a_torn_rest_counts_for_nothing(rt: HostRuntime) {
    assert_eq!(rt; whole_of(rt.alloc(), &BYTES[..350]), Ok(250));
    assert_eq!(rt; counts_of(rt.alloc(), &BYTES[..350]), Ok((0, 2)));
}

#[test]
fn what_is_no_part_of_a_record_is_bad(rt: HostRuntime) {
    assert_eq!(rt;
        whole_of(rt.alloc(), BYTES),
        Err(ContentFault::Bad { at: 351 })
    );
}

#[test]
fn a_record_that_ends_too_early_is_bad(rt: HostRuntime) {
    let mut bytes = *BYTES;
    // the second header says 83 bytes
    bytes[265] = b'3';
    assert_eq!(rt;
        whole_of(rt.alloc(), &bytes),
        Err(ContentFault::Bad { at: 250 })
    );
}
