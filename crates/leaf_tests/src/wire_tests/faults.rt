//! Texts that are neither a change nor a message, and the error of each.
use wire_json::{Field, WireError};

/// Lines that are not a change, and what is wrong with each.
pub(super) const FAULTS_OF_CHANGES: [(&str, WireError); 21] = rows! {
    r#""#, WireError::BadJson;
    r#"{"address":"10.0.0.2:1","incarnationNumber":5"#, WireError::BadJson;
    r#"[]"#, WireError::NotObject;
    r#"{}"#, WireError::MissingField(Field::Address);
    r#"{"address":"10.0.0.02:1"}"#, WireError::BadField(Field::Address);
    r#"{"address":10}"#, WireError::BadField(Field::Address);
    r#"{"address":"10.0.0.2:1"}"#, WireError::MissingField(Field::IncarnationNumber);
    r#"{"address":"10.0.0.2:1","incarnationNumber":1.0,"source":"10.0.0.2:1","sourceIncarnationNumber":5,"status":"alive"}"#,
        WireError::BadField(Field::IncarnationNumber);
    r#"{"address":"10.0.0.2:1","incarnationNumber":-1}"#, WireError::BadField(Field::IncarnationNumber);
    r#"{"address":"10.0.0.2:1","incarnationNumber":9007199254740992}"#, WireError::BadField(Field::IncarnationNumber);
    r#"{"address":"10.0.0.2:1","incarnationNumber":"5"}"#, WireError::BadField(Field::IncarnationNumber);
    r#"{"address":"10.0.0.2:1","incarnationNumber":5}"#, WireError::MissingField(Field::Source);
    r#"{"address":"10.0.0.2:1","incarnationNumber":5,"source":"10.0.0.2"}"#, WireError::BadField(Field::Source);
    r#"{"address":"10.0.0.2:1","incarnationNumber":5,"source":"10.0.0.2:1"}"#, WireError::MissingField(Field::SourceIncarnationNumber);
    r#"{"address":"10.0.0.2:1","incarnationNumber":5,"source":"10.0.0.2:1","sourceIncarnationNumber":5}"#,
        WireError::MissingField(Field::Status);
    r#"{"address":"10.0.0.2:1","incarnationNumber":5,"source":"10.0.0.2:1","sourceIncarnationNumber":5,"status":"Alive"}"#,
        WireError::BadField(Field::Status);
    r#"{"address":"10.0.0.2:1","incarnationNumber":5,"source":"10.0.0.2:1","sourceIncarnationNumber":5,"status":"faulty","tombstone":0,"weight":0}"#,
        WireError::BadField(Field::Tombstone);
    r#"{"address":"10.0.0.2:1","incarnationNumber":5,"source":"10.0.0.2:1","sourceIncarnationNumber":5,"status":"alive","weight":0}"#,
        WireError::BadField(Field::Weight);
    r#"{"address":"10.0.0.2:1","incarnationNumber":5,"source":"10.0.0.2:1","sourceIncarnationNumber":5,"status":"alive","weight":9}"#,
        WireError::BadField(Field::Weight);
    r#"{"address":"10.0.0.2:1","incarnationNumber":5,"source":"10.0.0.2:1","sourceIncarnationNumber":5,"status":"alive","weight":1.0}"#,
        WireError::BadField(Field::Weight);
    r#"{"address":"10.0.0.2:1","incarnationNumber":5,"source":"10.0.0.2:1","sourceIncarnationNumber":5,"status":"alive","weight":"2"}"#,
        WireError::BadField(Field::Weight);
};

/// Lines that are not a message, and what is wrong with each.
pub(super) const FAULTS_OF_MESSAGES: [(&str, WireError); 31] = rows! {
    r#"[]"#, WireError::NotObject;
    r#"{}"#, WireError::MissingField(Field::Kind);
    r#"{"kind":1}"#, WireError::BadField(Field::Kind);
    r#"{"kind":"nope"}"#, WireError::UnknownKind;
    r#"{"kind":"Ping","source":"10.0.0.1:1","sourceIncarnationNumber":7}"#, WireError::UnknownKind;
    r#"{"kind":"ping"}"#, WireError::MissingField(Field::Source);
    r#"{"kind":"ping","source":"10.0.0.01:1","sourceIncarnationNumber":-1}"#, WireError::BadField(Field::Source);
    r#"{"kind":"ping","source":"10.0.0.1:1"}"#, WireError::MissingField(Field::SourceIncarnationNumber);
    r#"{"kind":"ping","source":"10.0.0.1:1","sourceIncarnationNumber":"7"}"#, WireError::BadField(Field::SourceIncarnationNumber);
    r#"{"kind":"ping","source":"10.0.0.1:1","sourceIncarnationNumber":-0}"#, WireError::BadField(Field::SourceIncarnationNumber);
    r#"{"kind":"ping","source":"10.0.0.1:1","sourceIncarnationNumber":1e0}"#, WireError::BadField(Field::SourceIncarnationNumber);
    r#"{"kind":"ping","source":"10.0.0.1:1","sourceIncarnationNumber":9007199254740992}"#,
        WireError::BadField(Field::SourceIncarnationNumber);
    r#"{"kind":"ping","source":"10.0.0.1:1","sourceIncarnationNumber":7,"changes":3}"#, WireError::MissingField(Field::Checksum);
    r#"{"kind":"ping","source":"10.0.0.1:1","sourceIncarnationNumber":7,"checksum":"E3","changes":3}"#,
        WireError::BadField(Field::Checksum);
    r#"{"kind":"ping","source":"10.0.0.1:1","sourceIncarnationNumber":7,"checksum":"e3b0c44298fc1c149afbf4c8996fb92427ae41e4649b934ca495991b7852b855"}"#,
        WireError::MissingField(Field::Changes);
    r#"{"kind":"ping","source":"10.0.0.1:1","sourceIncarnationNumber":7,"checksum":"e3b0c44298fc1c149afbf4c8996fb92427ae41e4649b934ca495991b7852b855","changes":3}"#,
        WireError::BadField(Field::Changes);
    r#"{"kind":"ping","source":"10.0.0.1:1","sourceIncarnationNumber":7,"checksum":"e3b0c44298fc1c149afbf4c8996fb92427ae41e4649b934ca495991b7852b855","changes":[{"address":"10.0.0.2:1","incarnationNumber":5,"source":"10.0.0.2:1","sourceIncarnationNumber":5,"status":"alive"},{}]}"#,
        WireError::MissingField(Field::Address);
    r#"{"kind":"ping","source":"10.0.0.1:1","sourceIncarnationNumber":7,"checksum":"e3b0c44298fc1c149afbf4c8996fb92427ae41e4649b934ca495991b7852b855","changes":[{"address":"10.0.0.2:1","incarnationNumber":5,"source":"10.0.0.2:1","sourceIncarnationNumber":5,"status":"alive"},{"address":"10.0.0.2:1","incarnationNumber":5,"source":"10.0.0.2:1","sourceIncarnationNumber":5,"status":"Alive"}]}"#,
        WireError::BadField(Field::Status);
    r#"{"kind":"ping","source":"10.0.0.1:1","sourceIncarnationNumber":7,"checksum":"e3b0c44298fc1c149afbf4c8996fb92427ae41e4649b934ca495991b7852b855","changes":[{"address":"10.0.0.2:1","incarnationNumber":5,"source":"10.0.0.2:1","sourceIncarnationNumber":5,"status":"alive"},1]}"#,
        WireError::BadField(Field::Changes);
    r#"{"kind":"ping-req-ack","source":"10.0.0.1:1","sourceIncarnationNumber":7,"checksum":"e3b0c44298fc1c149afbf4c8996fb92427ae41e4649b934ca495991b7852b855","changes":[]}"#,
        WireError::MissingField(Field::Target);
    r#"{"kind":"ping-req-ack","source":"10.0.0.1:1","sourceIncarnationNumber":7,"checksum":"e3b0c44298fc1c149afbf4c8996fb92427ae41e4649b934ca495991b7852b855","changes":[],"target":"10.0.0.3"}"#,
        WireError::BadField(Field::Target);
    r#"{"kind":"ping-req-ack","source":"10.0.0.1:1","sourceIncarnationNumber":7,"checksum":"e3b0c44298fc1c149afbf4c8996fb92427ae41e4649b934ca495991b7852b855","changes":[],"target":"10.0.0.3:1"}"#,
        WireError::MissingField(Field::Reached);
    r#"{"kind":"ping-req-ack","source":"10.0.0.1:1","sourceIncarnationNumber":7,"checksum":"e3b0c44298fc1c149afbf4c8996fb92427ae41e4649b934ca495991b7852b855","changes":[],"target":"10.0.0.3:1","reached":1}"#,
        WireError::BadField(Field::Reached);
    r#"{"kind":"forward","source":"10.0.0.1:1","sourceIncarnationNumber":7,"body":"x"}"#, WireError::MissingField(Field::Keys);
    r#"{"kind":"forward","source":"10.0.0.1:1","sourceIncarnationNumber":7,"keys":"a","body":"x"}"#, WireError::BadField(Field::Keys);
    r#"{"kind":"forward","source":"10.0.0.1:1","sourceIncarnationNumber":7,"keys":[],"body":"x"}"#, WireError::BadField(Field::Keys);
    r#"{"kind":"forward","source":"10.0.0.1:1","sourceIncarnationNumber":7,"keys":["a",1],"body":"x"}"#, WireError::BadField(Field::Keys);
    r#"{"kind":"forward","source":"10.0.0.1:1","sourceIncarnationNumber":7,"keys":["a"]}"#, WireError::MissingField(Field::Body);
    r#"{"kind":"forward","source":"10.0.0.1:1","sourceIncarnationNumber":7,"keys":["a"],"body":7}"#, WireError::BadField(Field::Body);
    r#"{"kind":"refused","source":"10.0.0.1:1","sourceIncarnationNumber":7}"#, WireError::MissingField(Field::Reason);
    r#"{"kind":"refused","source":"10.0.0.1:1","sourceIncarnationNumber":7,"reason":"Memory"}"#, WireError::BadField(Field::Reason);
};
