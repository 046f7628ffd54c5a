// Laws of parts, over their definitions alone.

ghost use Rattle.std.specs.Prelude.{ℕ, ℤ, ◌^◌, ◌<◌, length, List};
ghost use Rattle.agg_metrics.specs.Metrics.{IsMetricOf, HasRoom};
ghost use Rattle.agg_metrics.specs.declared.metric_part.MetricPart.{MetricPart};

/// A part of few values.
pub fn few_have_room()
    // It has room for another one, and for what another such part has.
    ensures { (counted : ℕ) (values : List ℤ) (part : MetricPart) → IsMetricOf counted values part → counted < 2 ^ 126 → length values < 2 ^ 62 → HasRoom part }
{}
