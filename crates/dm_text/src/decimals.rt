ghost use Rattle.std.specs.Prelude.{◌≡◌, ◌/◌, ◌^◌, ◌++◌, unsigned_abs, OnOk};
ghost use Rattle.std.specs.Fmt.{decimal};
ghost use Rattle.dm_time.specs.Written.{digits_of};
ghost use Rattle.dm_text.specs.Values.{sign_text, places_text, decimal_text};

use dm_value::Dec;
use std::alloc::{AllocError, Global};

/// Adds a decimal, with one digit at least before the point.
pub fn push_decimal(alloc: Global, out: &mut Vec<u8>, dec: Dec) -> Result<(), AllocError>
    ensures { OnOk result (out.new.items ≡ out.old.items ++ decimal_text dec) }
{
    let number = dec.digits.unsigned_abs();
    push_sign(out, dec.digits)?;
    push_whole(alloc, out, number, dec.scale)?;
    push_places(out, number, dec.scale)
}

fn push_sign(out: &mut Vec<u8>, digits: i128) -> Result<(), AllocError>
    ensures { OnOk result (out.new.items ≡ out.old.items ++ sign_text digits) }
{
    if digits < 0 {
        out.push(b'-')?;
    }
    Ok(())
}

/// Adds what stands before the point.
fn push_whole(alloc: Global, out: &mut Vec<u8>, number: u128, scale: u8) -> Result<(), AllocError>
    ensures { OnOk result (out.new.items ≡ out.old.items ++ decimal (number / 10 ^ scale)) }
{
    let whole = whole_part(number, scale).to_string(alloc)?;
    out.extend_from_slice(whole.as_bytes())
}

fn whole_part(number: u128, scale: u8) -> u128
    ensures { result ≡ number / 10 ^ scale }
{
    match 10_u128.checked_pow(u32::from(scale)) {
        Some(unit) => number / unit,
        None => 0,
    }
}

/// Adds the point and what stands behind it, unless there is nothing.
fn push_places(out: &mut Vec<u8>, number: u128, scale: u8) -> Result<(), AllocError>
    ensures { OnOk result (out.new.items ≡ out.old.items ++ places_text scale number) }
{
    if scale == 0 {
        return Ok(());
    }
    out.push(b'.')?;
    push_digits(out, number, scale)
}

/// Adds the last so many digits of a number.
fn push_digits(out: &mut Vec<u8>, number: u128, count: u8) -> Result<(), AllocError>
    ensures { OnOk result (out.new.items ≡ out.old.items ++ digits_of count number) }
{
    if count > 0 {
        push_digits(out, number / 10, count - 1)?;
        out.push(b'0' + (number % 10) as u8)?;
    }
    Ok(())
}
