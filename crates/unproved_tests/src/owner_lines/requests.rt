//! What lines of an owner say, and why others are refused.

use enip_owner::{AttributeRef, GivenValue, OwnerRequest, read_request};
use json::Scratch;
use std::alloc::Global;
use std::test::Fail;

/// An attribute, as `class/instance/attribute`.
fn shown(alloc: Global, attribute: AttributeRef) -> Result<String, Fail> {
    let AttributeRef {
        class,
        instance,
        attribute,
    } = attribute;
    Ok(format!(in alloc; "{class}/{instance}/{attribute}")?)
}

/// What a line says in a few words, or why it is refused.
fn told(alloc: Global, line: &[u8]) -> Result<String, Fail> {
    let mut scratch = Scratch::new(alloc);
    let request = match read_request(alloc, line, &mut scratch) {
        Ok(request) => request,
        Err(fault) => return Ok(format!(in alloc; "{fault}")?),
    };
    match request {
        OwnerRequest::Done { ticket, reply } => {
            let digits = hex::encode(alloc, reply.data())?;
            Ok(format!(in alloc; "done {ticket} {} {digits}", reply.status())?)
        }
        OwnerRequest::Answer { question, reply } => {
            let digits = hex::encode(alloc, reply.data())?;
            Ok(format!(in alloc; "answer {question} {} {digits}", reply.status())?)
        }
        OwnerRequest::WriteData { attribute, bytes } => {
            let digits = hex::encode(alloc, bytes.as_slice())?;
            Ok(format!(in alloc; "write {} {digits}", shown(alloc, attribute)?)?)
        }
        OwnerRequest::WriteValues { attribute, values } => {
            let mut text = format!(in alloc; "values {}", shown(alloc, attribute)?)?;
            for value in &values {
                let word = match *value {
                    GivenValue::Truth(truth) => format!(in alloc; " {truth}")?,
                    GivenValue::Number(number) => format!(in alloc; " {number}")?,
                    GivenValue::Text(word) => format!(in alloc; " {word:?}")?,
                };
                text.push_str(word.as_str())?;
            }
            Ok(text)
        }
        OwnerRequest::Read { attribute } => {
            Ok(format!(in alloc; "read {}", shown(alloc, attribute)?)?)
        }
        OwnerRequest::Status { status } => Ok(format!(in alloc; "status {status}")?),
        OwnerRequest::State { state } => Ok(format!(in alloc; "state {state}")?),
    }
}

const NOT_REQUEST: &str =
    "expected an object with one key: done, answer, write, read, status or state";

const NOT_HEX: &str = "data: expected a string of hexadecimal digits, two per byte";

const NOT_VALUES: &str = "values: expected a list of numbers, strings, true and false";

/// Lines, and what they say.
static LINES: [(&str, &str); 90] = [
    (
        r#"{"done":{"ticket":7,"status":0,"data":"05"}}"#,
        "done 7 0 05",
    ),
    (r#"{"done":{"ticket":7,"status":0}}"#, "done 7 0 "),
    (r#"{"done":{"ticket":7,"status":0,"data":""}}"#, "done 7 0 "),
    (
        r#"{"done":{"data":"0aFf","status":255,"ticket":4294967295}}"#,
        "done 4294967295 255 0aff",
    ),
    (
        r#" { "done" : { "ticket" : 1 , "status" : 8 } } "#,
        "done 1 8 ",
    ),
    ("{\"done\":{\"ticket\":1,\"status\":8}}\r", "done 1 8 "),
    (r#"{"d\u006fne":{"ticket":1,"status":8}}"#, "done 1 8 "),
    (r#"{"done":{"ticket":0,"status":0}}"#, "done 0 0 "),
    (
        r#"{"answer":{"question":3,"status":0,"data":"05"}}"#,
        "answer 3 0 05",
    ),
    (
        r#"{"answer":{"data":"","status":255,"question":4294967295}}"#,
        "answer 4294967295 255 ",
    ),
    (
        r#"{"answer":{"question":4294967296,"status":0}}"#,
        "question: number out of range",
    ),
    (r#"{"answer":{"status":0}}"#, "missing key: question"),
    (
        r#"{"answer":{"ticket":3,"status":0}}"#,
        "answer: unknown key",
    ),
    (r#"{"answer":3}"#, "answer: expected an object"),
    (
        r#"{"write":{"class":4,"instance":100,"attribute":3,"data":"dc05"}}"#,
        "write 4/100/3 dc05",
    ),
    (
        r#"{"write":{"class":65535,"instance":4294967295,"attribute":65535,"data":""}}"#,
        "write 65535/4294967295/65535 ",
    ),
    (
        r#"{"write":{"class":4,"instance":100,"attribute":3,"values":[1500]}}"#,
        "values 4/100/3 1500",
    ),
    (
        r#"{"write":{"class":4,"instance":100,"attribute":3,"values":[]}}"#,
        "values 4/100/3",
    ),
    (
        r#"{"write":{"values":[-1,1.5e3,"a\nb",true,false],"class":4,"instance":100,"attribute":3}}"#,
        "values 4/100/3 -1 1.5e3 \"a\\nb\" true false",
    ),
    (
        r#"{"read":{"class":4,"instance":101,"attribute":3}}"#,
        "read 4/101/3",
    ),
    (r#"{"status":0}"#, "status 0"),
    (r#"{"status":65535}"#, "status 65535"),
    (r#"{"state":3}"#, "state 3"),
    (r#"{"state":255}"#, "state 255"),
    ("", "not JSON"),
    (" ", "not JSON"),
    ("{", "not JSON"),
    (r#"{"state":3"#, "not JSON"),
    (r#"{"state":3}}"#, "not JSON"),
    (r#"{"state":3}{"state":3}"#, "not JSON"),
    (r#"{"state":03}"#, "not JSON"),
    (r#"{"state":+3}"#, "not JSON"),
    (r#"{state:3}"#, "not JSON"),
    (r#"{'state':3}"#, "not JSON"),
    (r#"{"state":3,}"#, "not JSON"),
    (r#"{"state":0x3}"#, "not JSON"),
    (r#"{"state":3,"state":3}"#, "an object has a key twice"),
    (
        r#"{"done":{"ticket":7,"ticket":8,"status":0}}"#,
        "an object has a key twice",
    ),
    (
        r#"{"done":{"ticket":7,"tick\u0065t":8,"status":0}}"#,
        "an object has a key twice",
    ),
    (
        r#"{"done":{"ticket":7,"status":0,"x":{"a":1,"a":2}}}"#,
        "an object has a key twice",
    ),
    ("[]", NOT_REQUEST),
    ("7", NOT_REQUEST),
    ("null", NOT_REQUEST),
    (r#""done""#, NOT_REQUEST),
    ("{}", NOT_REQUEST),
    (r#"{"state":3,"status":0}"#, NOT_REQUEST),
    (r#"{"State":3}"#, NOT_REQUEST),
    (r#"{"finished":{"ticket":7}}"#, NOT_REQUEST),
    (r#"[{"state":3}]"#, NOT_REQUEST),
    (r#"{"done":7}"#, "done: expected an object"),
    (r#"{"done":[7]}"#, "done: expected an object"),
    (r#"{"write":null}"#, "write: expected an object"),
    (r#"{"read":"x"}"#, "read: expected an object"),
    (
        r#"{"done":{"ticket":7,"status":0,"class":4}}"#,
        "done: unknown key",
    ),
    (r#"{"done":{"Ticket":7,"status":0}}"#, "done: unknown key"),
    (
        r#"{"write":{"class":4,"instance":100,"attribute":3,"data":"00","ticket":1}}"#,
        "write: unknown key",
    ),
    (
        r#"{"read":{"class":4,"instance":101,"attribute":3,"data":"00"}}"#,
        "read: unknown key",
    ),
    (r#"{"done":{"status":0}}"#, "missing key: ticket"),
    (r#"{"done":{}}"#, "missing key: ticket"),
    (r#"{"done":{"ticket":7}}"#, "missing key: status"),
    (
        r#"{"write":{"instance":100,"attribute":3,"data":"00"}}"#,
        "missing key: class",
    ),
    (
        r#"{"write":{"class":4,"attribute":3,"data":"00"}}"#,
        "missing key: instance",
    ),
    (
        r#"{"read":{"class":4,"instance":101}}"#,
        "missing key: attribute",
    ),
    (
        r#"{"write":{"class":4,"instance":100,"attribute":3}}"#,
        "missing key: data",
    ),
    (
        r#"{"done":{"ticket":"7","status":0}}"#,
        "ticket: expected a number",
    ),
    (
        r#"{"done":{"ticket":null,"status":0}}"#,
        "ticket: expected a number",
    ),
    (
        r#"{"done":{"ticket":7,"status":true}}"#,
        "status: expected a number",
    ),
    (
        r#"{"read":{"class":[4],"instance":101,"attribute":3}}"#,
        "class: expected a number",
    ),
    (r#"{"status":"0"}"#, "status: expected a number"),
    (r#"{"state":{}}"#, "state: expected a number"),
    (
        r#"{"done":{"ticket":4294967296,"status":0}}"#,
        "ticket: number out of range",
    ),
    (
        r#"{"done":{"ticket":18446744073709551623,"status":0}}"#,
        "ticket: number out of range",
    ),
    (
        r#"{"done":{"ticket":-7,"status":0}}"#,
        "ticket: number out of range",
    ),
    (
        r#"{"done":{"ticket":7.0,"status":0}}"#,
        "ticket: number out of range",
    ),
    (
        r#"{"done":{"ticket":7,"status":256}}"#,
        "status: number out of range",
    ),
    (
        r#"{"done":{"ticket":7,"status":1e1}}"#,
        "status: number out of range",
    ),
    (
        r#"{"read":{"class":65536,"instance":101,"attribute":3}}"#,
        "class: number out of range",
    ),
    (
        r#"{"read":{"class":4,"instance":4294967296,"attribute":3}}"#,
        "instance: number out of range",
    ),
    (r#"{"status":65536}"#, "status: number out of range"),
    (r#"{"state":256}"#, "state: number out of range"),
    (r#"{"state":-0}"#, "state: number out of range"),
    (r#"{"done":{"ticket":7,"status":0,"data":5}}"#, NOT_HEX),
    (r#"{"done":{"ticket":7,"status":0,"data":"5"}}"#, NOT_HEX),
    (r#"{"done":{"ticket":7,"status":0,"data":"0g"}}"#, NOT_HEX),
    (
        r#"{"done":{"ticket":7,"status":0,"data":"05 06"}}"#,
        NOT_HEX,
    ),
    (
        r#"{"write":{"class":4,"instance":100,"attribute":3,"data":null}}"#,
        NOT_HEX,
    ),
    (
        r#"{"write":{"class":4,"instance":100,"attribute":3,"data":"00","values":[0]}}"#,
        "write: both data and values",
    ),
    (
        r#"{"write":{"class":4,"instance":100,"attribute":3,"values":1500}}"#,
        NOT_VALUES,
    ),
    (
        r#"{"write":{"class":4,"instance":100,"attribute":3,"values":[1,null]}}"#,
        NOT_VALUES,
    ),
    (
        r#"{"write":{"class":4,"instance":100,"attribute":3,"values":[[1]]}}"#,
        NOT_VALUES,
    ),
];

#[test]
fn lines(rt: HostRuntime) -> Result<(), Fail> {
    for (line, wanted) in &LINES {
        let got = told(rt.alloc(), line.as_bytes())?;
        assert!(rt; got.as_str() == *wanted, "{line} says {}", got.as_str());
    }
    Ok(())
}

/// A line that is not UTF-8.
#[test]
fn not_utf8(rt: HostRuntime) -> Result<(), Fail> {
    let got = told(
        rt.alloc(),
        b"{\"write\":{\"class\":4,\"instance\":1,\"attribute\":3,\"values\":[\"\xff\"]}}",
    )?;
    assert_eq!(rt; got.as_str(), "not JSON");
    Ok(())
}

/// A line with this many bytes of data.
fn with_data(alloc: Global, front: &str, bytes: usize) -> Result<String, Fail> {
    let mut line = String::new(alloc);
    line.push_str(front)?;
    for _ in 0..bytes {
        line.push_str("a5")?;
    }
    line.push_str("\"}}")?;
    Ok(line)
}

/// A reply has at most 480 bytes, and a value at most 500.
#[test]
fn longest_data(rt: HostRuntime) -> Result<(), Fail> {
    let done = r#"{"done":{"ticket":7,"status":0,"data":""#;
    let write = r#"{"write":{"class":4,"instance":1,"attribute":3,"data":""#;
    for (front, most) in [(done, 480), (write, 500)] {
        let longest = told(rt.alloc(), with_data(rt.alloc(), front, most)?.as_bytes())?;
        assert!(rt; longest.as_str().ends_with("a5"), "{}", longest.as_str());
        let longer = told(
            rt.alloc(),
            with_data(rt.alloc(), front, most + 1)?.as_bytes(),
        )?;
        assert_eq!(rt; longer.as_str(), "data: too many bytes");
    }
    Ok(())
}
