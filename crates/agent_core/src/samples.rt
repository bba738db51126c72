//! The samples of metrics, in the text format of Prometheus (version 0.0.4).
ghost use Rattle.std.specs.Prelude.{◌≡◌, ◌<◌, ◌++◌, OnOk, codes, flat_map, string_bytes};
ghost use Rattle.agent_core.specs.Metrics.{bucket_sample, bucket_samples, head, labelled, milli_sample, time_samples, within};

use crate::counts::{BUCKETS, TimeCounts};
use std::alloc::AllocError;
use std::fmt::Write;

/// Returns the number of times that are no longer than the bucket's bound, or 2^64 - 1 if there are more.
fn within(buckets: &[u64; BUCKETS], bucket: usize) -> u64
    requires { bucket < BUCKETS }
    ensures { result ≡ within buckets.now bucket }
{
    let mut sum: u64 = 0;
    for count in &buckets[..bucket + 1] {
        sum = sum.saturating_add(*count);
    }
    sum
}

/// Appends the lines that say what a metric is, and of which kind.
pub(crate) fn push_head(
    text: &mut String,
    name: &str,
    kind: &str,
    help: &str,
) -> Result<(), AllocError>
    ensures { OnOk result (string_bytes text.new ≡ string_bytes text.old ++ head name.now kind.now help.now) }
{
    write!(text, "# HELP {name} {help}\n# TYPE {name} {kind}\n")?;
    Ok(())
}

/// Appends the samples of a metric.
fn push_samples(text: &mut String, name: &str, samples: &[(&str, u64)]) -> Result<(), AllocError>
    ensures { OnOk result (string_bytes text.new ≡ string_bytes text.old ++ flat_map (labelled name.now) samples.now) }
{
    for sample in samples {
        let (labels, number) = sample;
        write!(text, "{name}{labels} {number}\n")?;
    }
    Ok(())
}

/// Appends a metric that says how much there is of something, with its samples: for each its labels in braces, or none, and its number.
pub(crate) fn push_gauge(
    text: &mut String,
    name: &str,
    help: &str,
    samples: &[(&str, u64)],
) -> Result<(), AllocError>
    ensures { OnOk result (string_bytes text.new ≡ string_bytes text.old ++ (head name.now (codes "gauge") help.now ++ flat_map (labelled name.now) samples.now)) }
{
    push_head(text, name, "gauge", help)?;
    push_samples(text, name, samples)?;
    Ok(())
}

/// Appends a metric that only grows, with its samples.
pub(crate) fn push_counter(
    text: &mut String,
    name: &str,
    help: &str,
    samples: &[(&str, u64)],
) -> Result<(), AllocError>
    ensures { OnOk result (string_bytes text.new ≡ string_bytes text.old ++ (head name.now (codes "counter") help.now ++ flat_map (labelled name.now) samples.now)) }
{
    push_head(text, name, "counter", help)?;
    push_samples(text, name, samples)?;
    Ok(())
}

/// Appends a sample of a number of thousandths.
pub(crate) fn push_millis(text: &mut String, name: &str, millis: u64) -> Result<(), AllocError>
    ensures { OnOk result (string_bytes text.new ≡ string_bytes text.old ++ milli_sample name.now millis) }
{
    write!(text, "{name} {millis}e-3\n")?;
    Ok(())
}

/// Appends the number of times that are no longer than the bucket's bound, with that bound in seconds.
fn push_bucket(
    text: &mut String,
    name: &str,
    buckets: &[u64; BUCKETS],
    bucket: usize,
    bound: &str,
) -> Result<(), AllocError>
    requires { bucket < BUCKETS }
    ensures { OnOk result (string_bytes text.new ≡ string_bytes text.old ++ bucket_sample name.now buckets.now bucket bound.now) }
{
    let count = within(buckets, bucket);
    write!(text, "{name}_bucket{{le=\"{bound}\"}} {count}\n")?;
    Ok(())
}

/// Appends the buckets of a histogram.
fn push_buckets(text: &mut String, name: &str, buckets: &[u64; BUCKETS]) -> Result<(), AllocError>
    ensures { OnOk result (string_bytes text.new ≡ string_bytes text.old ++ bucket_samples name.now buckets.now) }
{
    push_bucket(text, name, buckets, 0, "0.00025")?;
    push_bucket(text, name, buckets, 1, "0.0005")?;
    push_bucket(text, name, buckets, 2, "0.001")?;
    push_bucket(text, name, buckets, 3, "0.005")?;
    push_bucket(text, name, buckets, 4, "0.01")?;
    push_bucket(text, name, buckets, 5, "0.05")?;
    push_bucket(text, name, buckets, 6, "0.1")?;
    push_bucket(text, name, buckets, 7, "0.5")?;
    push_bucket(text, name, buckets, 8, "1")?;
    push_bucket(text, name, buckets, 9, "5")?;
    push_bucket(text, name, buckets, 10, "10")?;
    push_bucket(text, name, buckets, 11, "+Inf")?;
    Ok(())
}

/// Appends a histogram of times, their sum and their number.
pub(crate) fn push_times(
    text: &mut String,
    name: &str,
    help: &str,
    times: &TimeCounts,
) -> Result<(), AllocError>
    ensures { OnOk result (string_bytes text.new ≡ string_bytes text.old ++ time_samples name.now help.now times.now) }
{
    push_head(text, name, "histogram", help)?;
    push_buckets(text, name, &times.buckets)?;
    let micros = times.micros;
    let count = within(&times.buckets, BUCKETS - 1);
    write!(text, "{name}_sum {micros}e-6\n{name}_count {count}\n")?;
    Ok(())
}
