//! The table `ledger` of a configuration.

ghost use Rattle.std.specs.Prelude.{◌≡◌, IfOk, IfErr, Some, option_map};
ghost use Rattle.toml.specs.View.{view, table_view};
ghost use Rattle.enip_config.specs.Keys.{ledger_in, ledger_of};
ghost use Rattle.attribute_types.specs.Values.{IsBad};
ghost use Rattle.enip_config.specs.Documents.{IsUnread, ledger_seen};

use crate::key::{LIFE, ORIGINATORS};
use crate::values::number_by;
use attribute_types::{BAD_VALUE, value_of};
use config_explained::Finding;
use config_refusal::LoadFault;
use toml::{Table, Value};

/// The command ledger of a device.
#[derive(Clone, Copy, Debug)]
pub struct LedgerConfig {
    /// How many originators have a slot, 1 to 64.
    pub originators: u16,
    /// The number of the device's life, 1 to 2^63 - 1.
    pub life: u64,
}

/// Reads the table `ledger`. `None` if it is left out.
pub(crate) fn ledger_of(
    text: &Table,
    finding: &mut Finding,
) -> Result<Option<LedgerConfig>, LoadFault>
    ensures read { IfOk result (λ ledger. ledger_of (table_view text.now) ≡ Some (option_map ledger_seen ledger)) }
    ensures refused { IfErr result (IsUnread (table_view text.now)) }
{
    finding.enter_table("ledger");
    match value_of(text, "ledger") {
        None => Ok(None),
        Some(value) => Ok(Some(ledger_in(value, finding)?)),
    }
}

/// Reads a value as a table `ledger`.
fn ledger_in(value: &Value, finding: &mut Finding) -> Result<LedgerConfig, LoadFault>
    ensures read { IfOk result (λ ledger. ledger_in (view value.now) ≡ Some (ledger_seen ledger)) }
    ensures refused { IfErr result (IsBad (ledger_in (view value.now))) }
{
    let Value::Table(table) = value else {
        return Err(BAD_VALUE);
    };
    Ok(LedgerConfig {
        originators: number_by(table, ORIGINATORS, finding)?,
        life: number_by(table, LIFE, finding)?,
    })
}
