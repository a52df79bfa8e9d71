//! A value apart from others in memory.
ghost use Rattle.std.specs.Prelude.{◌≡◌};

/// A value with 128 unused bytes before it. So it shares no cache line with what lies there, such as the word of its lock, which waiting
/// threads take from each other.
#[derive(Drop)]
pub struct Apart<V> {
    apart: [u64; 16],
    pub value: V,
}

impl<V> Apart<V> {
    /// Wraps this value.
    pub fn new(value: V) -> Self
        ensures { result.value ≡ value }
    {
        Apart {
            apart: [0; 16],
            value,
        }
    }

    /// Returns the value.
    pub fn into_inner(self) -> V
        ensures { result ≡ self.value }
    {
        let Apart { value, .. } = self;
        value
    }
}
