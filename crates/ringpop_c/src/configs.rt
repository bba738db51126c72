//! The configuration of a node.
ghost use Rattle.std.specs.Prelude.{◌≡◌};
ghost use Rattle.node_core.specs.Configs.{standard};
ghost use Rattle.ringpop_c.specs.Creation.{config_of};

use change_core::Weight;
use node_core::Config;

/// The configuration of a node. The ranges are those of `node_core::Config`.
#[repr(C)]
#[derive(Clone, Copy, Debug, PartialEq, Eq)]
pub struct RingpopConfig {
    /// Points of the ring for each unit of weight, from 1 to 1,000.
    pub replicas: u32,
    /// Times that a change is passed on, for each decimal digit of the number of serving members, from 1 to 1,000.
    pub piggyback: u32,
    /// Members held at most, from 1 to 4,096.
    pub max_members: usize,
    /// Milliseconds until a suspect becomes faulty, from 1 to 2^53 - 1.
    pub suspect_ms: u64,
    /// Milliseconds until a faulty member becomes a tombstone, from 1 to 2^53 - 1.
    pub faulty_ms: u64,
    /// Members asked to ping a target that did not answer, from 0 to 16.
    pub helpers: usize,
    /// Changes in a message at most, from 1 to 4,096.
    pub per_message: usize,
    /// Shares of the ring that the node takes, from 1 to 8.
    pub weight: u8,
}

/// Fills a configuration with that of `Config::standard`, which suits most clusters.
#[unsafe(no_mangle)]
pub extern "C" fn ringpop_config_standard(config: &mut RingpopConfig)
    ensures { config_of config.new ≡ standard }
{
    let standard = Config::standard();
    *config = RingpopConfig {
        replicas: standard.replicas,
        piggyback: standard.piggyback,
        max_members: standard.max_members,
        suspect_ms: standard.suspect_ms,
        faulty_ms: standard.faulty_ms,
        helpers: standard.helpers,
        per_message: standard.per_message,
        weight: standard.weight.number(),
    };
}

/// Returns the configuration for a caller's one; its weight is read already.
pub(crate) fn read_config(config: &RingpopConfig, weight: Weight) -> Config
    requires { weight ≡ config.now.weight }
    ensures { result ≡ config_of config.now }
{
    Config {
        replicas: config.replicas,
        max_members: config.max_members,
        suspect_ms: config.suspect_ms,
        faulty_ms: config.faulty_ms,
        helpers: config.helpers,
        piggyback: config.piggyback,
        per_message: config.per_message,
        weight,
    }
}
