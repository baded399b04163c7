// The value of a pair: 0 violated, 1 undetermined, 2 valid.
ghost use Rattle.std.specs.Prelude.{◌≡◌, ◌-◌, min, max, IfOk};
ghost use Rattle.cases.specs.Refusals.{fault_in};
ghost use Rattle.semantics.specs.Values.{byte_says, said_number, said_value, said_value_or_fault};

use cases::refusals::Fault;

#[derive(Clone, Copy, PartialEq, Eq)]
pub struct Value(pub u8);

impl Value {
    pub const VIOLATED: Value = Value(0);

    pub const OPEN: Value = Value(1);

    pub const VALID: Value = Value(2);

    // What a byte says: a value, unless it is above 2.
    pub fn of_byte(byte: u8) -> Result<Value, Fault>
        ensures said { result ≡ said_value_or_fault (byte_says byte) }
        ensures number { fault_in result ≡ said_number (byte_says byte) }
        ensures value { IfOk result (λ v. v.0 ≡ said_value (byte_says byte)) }
    {
        if byte <= 2 {
            Ok(Value(byte))
        } else {
            Err(Fault::NoValue)
        }
    }

    pub fn deny(self) -> Value
        ensures { result.0 ≡ 2 - self.0 }
    {
        Value(2u8.saturating_sub(self.0))
    }

    pub fn smaller(self, other: Value) -> Value
        ensures { result.0 ≡ min self.0 other.0 }
    {
        Value(self.0.min(other.0))
    }

    pub fn larger(self, other: Value) -> Value
        ensures { result.0 ≡ max self.0 other.0 }
    {
        Value(self.0.max(other.0))
    }
}
