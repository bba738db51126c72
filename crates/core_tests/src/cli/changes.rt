//! Change lines.

pub const ALIVE: &str =
    r#"{"address":"10.0.0.2:1","incarnationNumber":5,"source":"10.0.0.2:1","sourceIncarnationNumber":5,"status":"alive"}"#;

pub const HEAVIER: &str =
    r#"{"address":"10.0.0.2:1","incarnationNumber":5,"source":"10.0.0.2:1","sourceIncarnationNumber":5,"status":"alive","weight":2}"#;

pub const SUSPECT: &str =
    r#"{"address":"10.0.0.2:1","incarnationNumber":5,"source":"10.0.0.2:1","sourceIncarnationNumber":5,"status":"suspect"}"#;

pub const LEAVE: &str =
    r#"{"address":"10.0.0.2:1","incarnationNumber":5,"source":"10.0.0.2:1","sourceIncarnationNumber":5,"status":"leave"}"#;

pub const TOMBSTONE: &str =
    r#"{"address":"10.0.0.2:1","incarnationNumber":5,"source":"10.0.0.2:1","sourceIncarnationNumber":5,"status":"tombstone"}"#;

pub const LATER: &str =
    r#"{"address":"10.0.0.2:1","incarnationNumber":6,"source":"10.0.0.2:1","sourceIncarnationNumber":6,"status":"alive"}"#;

pub const HEAVIEST: &str =
    r#"{"address":"10.0.0.2:1","incarnationNumber":5,"source":"10.0.0.2:1","sourceIncarnationNumber":5,"status":"alive","weight":3}"#;

pub const FAULTY: &str =
    r#"{"address":"10.0.0.2:1","incarnationNumber":5,"source":"10.0.0.1:1","sourceIncarnationNumber":5,"status":"faulty"}"#;

pub const FIRST: &str =
    r#"{"address":"10.0.0.1:1","incarnationNumber":5,"source":"10.0.0.1:1","sourceIncarnationNumber":5,"status":"alive"}"#;

pub const ELEVENTH: &str =
    r#"{"address":"10.0.0.1:11","incarnationNumber":5,"source":"10.0.0.1:11","sourceIncarnationNumber":5,"status":"alive"}"#;

pub const THIRD: &str =
    r#"{"address":"10.0.0.3:1","incarnationNumber":5,"source":"10.0.0.3:1","sourceIncarnationNumber":5,"status":"alive"}"#;
