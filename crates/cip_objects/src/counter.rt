//! The counter, a vendor-specific object (class 0x64).
//! Text: docs/PROTOCOL.md, "Objects".
ghost use Rattle.std.specs.Prelude.{◌≡◌, ◌≤◌, ◌<◌, ◌+◌, ◌%◌, ◌^◌, option_map, IfSome, IfOk, IfErr, OnOk, OnErr};
ghost use Rattle.cip_objects.specs.Entries.{attribute_in, counter_attributes};
ghost use Rattle.cip_objects.specs.Configuration.{counter_of};
ghost use Rattle.cip_objects.specs.AttributeValue.{value_bytes, IsShort};
ghost use Rattle.cip_objects.specs.declared.status.Refusal.TheVariants.{InvalidParameter, InvalidAttributeValue};

use crate::config::CounterConfig;
use crate::status::Refusal;
use crate::value::AttributeValue;

/// The one instance of the counter (our choice).
#[derive(Clone, Copy, Debug)]
pub(crate) struct Counter {
    /// Whether the device has it. If not, nothing leads to it.
    pub(crate) enabled: bool,
    /// The sum of the additions since the last Clear, at most `limit`.
    pub(crate) value: u32,
    /// The greatest `value`.
    pub(crate) limit: u32,
    /// How many additions were accepted, modulo 2^32.
    pub(crate) additions: u32,
}

impl Counter {
    ghost use Rattle.cip_objects.specs.Counter.{counter_values};

    /// The counter of a configuration, with no addition yet.
    pub(crate) fn new(config: CounterConfig) -> Counter
        ensures new { counter_values result ≡ counter_of config }
        ensures value { config.value < 2 ^ 32 }
        ensures limit { config.limit < 2 ^ 32 }
    {
        Counter {
            enabled: config.enabled,
            value: config.value,
            limit: config.limit,
            additions: 0,
        }
    }

    /// The counter after this addition, which is counted.
    ///
    /// # Errors
    ///
    /// `InvalidParameter` if the value would pass the limit.
    pub(crate) fn add(self, amount: u32) -> Result<Counter, Refusal>
        ensures ok { IfOk result (λ counter. counter
            ≡ record self { value = self.value + amount; additions = (self.additions + 1) % 2 ^ 32 }) }
        ensures within { IfOk result (λ counter. counter.value ≤ counter.limit) }
        ensures over { OnErr result (self.limit < self.value + amount) }
        ensures refused { IfErr result (λ refusal. refusal ≡ InvalidParameter) }
    {
        // The value never passes the limit: 0x20 (our choice).
        match self.value.checked_add(amount) {
            Some(value) if value <= self.limit => Ok(Counter {
                enabled: self.enabled,
                value,
                limit: self.limit,
                additions: self.additions.wrapping_add(1),
            }),
            _ => Err(Refusal::InvalidParameter),
        }
    }

    /// The counter after a Clear.
    pub(crate) fn clear(self) -> Counter
        ensures { result ≡ record self { value = 0 } }
    {
        Counter {
            enabled: self.enabled,
            value: 0,
            limit: self.limit,
            additions: self.additions,
        }
    }

    /// The counter with another limit.
    ///
    /// # Errors
    ///
    /// `InvalidAttributeValue` if the limit would be below the value.
    pub(crate) fn with_limit(self, limit: u32) -> Result<Counter, Refusal>
        ensures ok { IfOk result (λ counter. counter ≡ record self { limit = limit }) }
        ensures within { OnOk result (self.value ≤ limit) }
        ensures below { OnErr result (limit < self.value) }
        ensures refused { IfErr result (λ refusal. refusal ≡ InvalidAttributeValue) }
    {
        // The limit is never below the value: 0x09 (our choice).
        if limit < self.value {
            return Err(Refusal::InvalidAttributeValue);
        }
        Ok(Counter {
            enabled: self.enabled,
            value: self.value,
            limit,
            additions: self.additions,
        })
    }

    /// The value of an attribute of the instance.
    pub(crate) fn attribute(self, attribute: u16) -> Option<AttributeValue<'static>>
        ensures value { option_map value_bytes result
            ≡ attribute_in attribute (counter_attributes (counter_values self)) }
        ensures short { IfSome result IsShort }
    {
        match attribute {
            1 => Some(AttributeValue::Udint(self.value)),
            2 => Some(AttributeValue::Udint(self.limit)),
            3 => Some(AttributeValue::Udint(self.additions)),
            _ => None,
        }
    }
}
