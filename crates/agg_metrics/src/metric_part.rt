//! What some whole numbers count, in a form that is added to and merged.

ghost use Rattle.std.specs.Prelude.{◌≡◌, ℕ, ℤ, ◌+◌, ◌^◌, ◌<◌, ◌∷◌, [], ◌++◌, List};

/// How many values were counted, and the sum, the least and the greatest of the whole numbers that were added. It takes 64 bytes.
#[derive(Clone, Copy)]
pub struct MetricPart {
    pub(crate) count: u128,
    pub(crate) sum: i128,
    // The greatest number there is, where none was added.
    pub(crate) least: i128,
    // The least number there is, where none was added.
    pub(crate) greatest: i128,
}

impl MetricPart {
    ghost use Rattle.agg_metrics.specs.Metrics.{IsMetricOf, IsWhole, HasRoom, RoomFor, total, least_of, greatest_of};

    /// The part of no values.
    pub fn vacant() -> MetricPart
        ensures { IsMetricOf 0 [] result }
    {
        MetricPart {
            count: 0,
            sum: 0,
            least: i128::MAX,
            greatest: i128::MIN,
        }
    }

    /// Adds a whole number, the value of a `u64` or an `i64`, to the sum and the extremes. It is not counted.
    pub fn add(&mut self, value: i128)
        requires whole { IsWhole value }
        requires room { HasRoom self.old }
        ensures { (counted : ℕ) (values : List ℤ) → IsMetricOf counted values self.old → IsMetricOf counted (values ++ value ∷ []) self.new }
    {
        self.sum += value;
        self.least = self.least.min(value);
        self.greatest = self.greatest.max(value);
    }

    /// Counts so many values more. Nothing is added.
    pub fn count(&mut self, values: u64)
        requires { RoomFor values self.old }
        ensures { (counted : ℕ) (added : List ℤ) → IsMetricOf counted added self.old → IsMetricOf (counted + values) added self.new }
    {
        self.count += u128::from(values);
    }

    /// Adds what another part counts and what was added to it.
    pub fn merge(&mut self, other: &MetricPart)
        requires mine { HasRoom self.old }
        requires yours { HasRoom other.now }
        ensures { (mine yours : ℕ) (values others : List ℤ) → IsMetricOf mine values self.old → IsMetricOf yours others other.now
            → IsMetricOf (mine + yours) (values ++ others) self.new }
    {
        self.count += other.count;
        self.sum += other.sum;
        self.least = self.least.min(other.least);
        self.greatest = self.greatest.max(other.greatest);
    }

    /// How many values were counted.
    pub fn counted(&self) -> u128
        ensures { (counted : ℕ) (values : List ℤ) → IsMetricOf counted values self.now → result ≡ counted }
    {
        self.count
    }

    /// The sum of what was added, 0 where nothing was.
    pub fn sum(&self) -> i128
        ensures { (counted : ℕ) (values : List ℤ) → IsMetricOf counted values self.now → result ≡ total values }
    {
        self.sum
    }

    /// The least number that was added, if any was.
    pub fn least(&self) -> Option<i128>
        ensures { (counted : ℕ) (values : List ℤ) → IsMetricOf counted values self.now → result ≡ least_of values }
    {
        if self.least <= self.greatest {
            Some(self.least)
        } else {
            None
        }
    }

    /// The greatest number that was added, if any was.
    pub fn greatest(&self) -> Option<i128>
        ensures { (counted : ℕ) (values : List ℤ) → IsMetricOf counted values self.now → result ≡ greatest_of values }
    {
        if self.least <= self.greatest {
            Some(self.greatest)
        } else {
            None
        }
    }
}
