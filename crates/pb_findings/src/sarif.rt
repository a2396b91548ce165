//! What is found, as one document of SARIF 2.1.0.

ghost use Rattle.std.specs.Prelude.{◌≡◌, ◌++◌, IfOk, OnOk, codes};
ghost use Rattle.std.specs.List.{flat_map, list_any};
ghost use Rattle.std.specs.Str.{bytes_eq};
ghost use Rattle.pb_findings.specs.Rules.{rule_name};
ghost use Rattle.pb_findings.specs.Sarif as spec;
ghost use Rattle.pb_findings.specs.Sarif.{array_text, document_sarif, failed_sarif, invocation_sarif, notice_sarif, report_has, report_sarif, rule_if};
ghost use Rattle.pb_findings.specs.Sarif.{rule_sarif, some_text, unread_sarif, verdict_has};
ghost use Rattle.pb_options.specs.Codes.{code_name};

use crate::results::put_results;
use crate::rule::Rule;
use crate::said::{Found, Report, Verdict};
use crate::strings::put_words;
use crate::warned::Warned;
use pb_base::NoMemory;
use pb_base::writing::{put, put_name};
use pb_options::Code;
use std::alloc::Global;

/// What a finding of a text may be filed under, in the order of the words.
const ALL: [Rule; 18] = [
    Rule::Code(Code::C1),
    Rule::Code(Code::L1),
    Rule::Code(Code::L2),
    Rule::Code(Code::L3),
    Rule::Code(Code::L4),
    Rule::Code(Code::N1),
    Rule::Code(Code::N2),
    Rule::Code(Code::N3),
    Rule::Code(Code::N4),
    Rule::Code(Code::N6),
    Rule::Code(Code::P1),
    Rule::Code(Code::P2),
    Rule::Code(Code::P3),
    Rule::Code(Code::W1),
    Rule::Code(Code::W2),
    Rule::Code(Code::W3),
    Rule::Code(Code::Input),
    Rule::Memory,
];

/// Appends a list that has items, and what closes it.
fn put_some(out: &mut Vec<u8>, items: &[u8], close: &[u8]) -> Result<(), NoMemory>
    ensures { OnOk result (out.new.items ≡ out.old.items ++ some_text close.now items.now) }
{
    put(out, b"[")?;
    put(out, items)?;
    put(out, close)
}

/// Appends a list of items, of which each is given with a comma before it, and what closes it.
fn put_array(out: &mut Vec<u8>, items: &[u8], close: &[u8]) -> Result<(), NoMemory>
    ensures { OnOk result (out.new.items ≡ out.old.items ++ array_text close.now items.now) }
{
    match items {
        [] => put(out, b"[]"),
        [_, rest @ ..] => put_some(out, rest, close),
    }
}

/// Returns whether a warning is filed under a rule.
fn warns_of(warned: &Warned, rule: &str) -> bool
    ensures { result ≡ bytes_eq (code_name warned.now.code) rule.now }
{
    warned.code.name() == rule
}

/// Returns whether one of some warnings is filed under a rule.
fn some_warns_of(warned: &[Warned], rule: &str) -> bool
    ensures { result ≡ list_any (λ w. bytes_eq (code_name w.code) rule.now) warned.now }
{
    warned.iter().any(|one| warns_of(one, rule))
}

/// Returns whether something that comes of a text is filed under a rule.
fn found_has(found: &Found, rule: &str) -> bool
    ensures { result ≡ verdict_has rule.now found.now.verdict }
{
    match &found.verdict {
        Verdict::Accepted(warned) => some_warns_of(warned, rule),
        Verdict::Refused(refusal) => refusal.rule.name() == rule,
    }
}

/// Returns whether something that comes of some texts is filed under a rule.
fn texts_have(texts: &[Found], rule: &str) -> bool
    ensures { result ≡ list_any (λ f. verdict_has rule.now f.verdict) texts.now }
{
    texts.iter().any(|found| found_has(found, rule))
}

/// Returns whether something in a file is filed under a rule.
fn has(report: &Report, rule: &str) -> bool
    ensures { result ≡ report_has rule.now report.now }
{
    match report {
        Report::Texts { name: _, found } => texts_have(found, rule),
        Report::Unread { .. } => false,
    }
}

/// Returns whether something in some files is filed under a rule.
pub fn some_has(said: &[Report], rule: &str) -> bool
    ensures { result ≡ list_any (report_has rule.now) said.now }
{
    said.iter().any(|report| has(report, rule))
}

/// Appends a rule.
fn put_rule(out: &mut Vec<u8>, name: &[u8], summary: &[u8]) -> Result<(), NoMemory>
    ensures { OnOk result (out.new.items ≡ out.old.items ++ rule_sarif name.now summary.now) }
{
    put(out, b",\n            {\n              \"id\": ")?;
    put_words(out, name)?;
    put(
        out,
        b",\n              \"shortDescription\": {\n                \"text\": ",
    )?;
    put_words(out, summary)?;
    put(out, b"\n              }\n            }")
}

/// Appends a rule, if something is filed under it.
fn put_rule_if(out: &mut Vec<u8>, said: &[Report], rule: Rule) -> Result<(), NoMemory>
    ensures { OnOk result (out.new.items ≡ out.old.items ++ rule_if said.now rule) }
{
    if some_has(said, rule.name()) {
        put_rule(out, rule.name().as_bytes(), rule.summary().as_bytes())
    } else {
        Ok(())
    }
}

/// Appends those of some rules under which something is filed.
fn put_rules(out: &mut Vec<u8>, said: &[Report], rules: &[Rule]) -> Result<(), NoMemory>
    ensures { OnOk result (out.new.items ≡ out.old.items ++ flat_map (rule_if said.now) rules.now) }
{
    for rule in rules {
        put_rule_if(out, said, *rule)?;
    }
    Ok(())
}

/// Appends a file that cannot be read.
fn put_unread(out: &mut Vec<u8>, name: &[u8], reason: &[u8]) -> Result<(), NoMemory>
    ensures { OnOk result (out.new.items ≡ out.old.items ++ unread_sarif name.now reason.now) }
{
    put(
        out,
        b",\n            {\n              \"level\": \"error\",\n              \"message\": {\n                \"text\": ",
    )?;
    put_words(out, reason)?;
    put_name(
        out,
        b"\n              },\n              \"locations\": [\n                {\n                  \"physicalLocation\": {\n                    \"artifactLocation\": {\n                      \"uri\": \"",
        name,
    )?;
    put(
        out,
        b"\"\n                    }\n                  }\n                }\n              ]\n            }",
    )
}

/// Appends a file, if it cannot be read.
fn put_notice(out: &mut Vec<u8>, report: &Report) -> Result<(), NoMemory>
    ensures { OnOk result (out.new.items ≡ out.old.items ++ notice_sarif report.now) }
{
    match report {
        Report::Texts { .. } => Ok(()),
        Report::Unread { name, reason } => put_unread(out, name, reason),
    }
}

/// Appends those of some files that cannot be read.
fn put_notices(out: &mut Vec<u8>, said: &[Report]) -> Result<(), NoMemory>
    ensures { OnOk result (out.new.items ≡ out.old.items ++ flat_map notice_sarif said.now) }
{
    for report in said {
        put_notice(out, report)?;
    }
    Ok(())
}

/// Appends which files could not be read.
fn put_failed(out: &mut Vec<u8>, notices: &[u8]) -> Result<(), NoMemory>
    ensures { OnOk result (out.new.items ≡ out.old.items ++ failed_sarif notices.now) }
{
    put(out, b"false,\n          \"toolExecutionNotifications\": ")?;
    put_array(out, notices, b"\n          ]")
}

/// Appends whether all files could be read, and which could not.
fn put_invocation(out: &mut Vec<u8>, notices: &[u8]) -> Result<(), NoMemory>
    ensures { OnOk result (out.new.items ≡ out.old.items ++ invocation_sarif notices.now) }
{
    match notices {
        [] => put(out, b"true"),
        [_, ..] => put_failed(out, notices),
    }
}

/// Returns the rules under which something is filed, each with a comma before it.
fn rules_of(alloc: Global, said: &[Report]) -> Result<Vec<u8>, NoMemory>
    ensures { IfOk result (λ text. text.items ≡ flat_map (rule_if said.now) spec.all_rules) }
{
    let mut text = Vec::new(alloc);
    put_rules(&mut text, said, ALL.as_slice())?;
    Ok(text)
}

/// Returns the files that cannot be read, each with a comma before it.
fn notices_of(alloc: Global, said: &[Report]) -> Result<Vec<u8>, NoMemory>
    ensures { IfOk result (λ text. text.items ≡ flat_map notice_sarif said.now) }
{
    let mut text = Vec::new(alloc);
    put_notices(&mut text, said)?;
    Ok(text)
}

/// Returns the results of files, each with a comma before it.
fn results_of(alloc: Global, said: &[Report]) -> Result<Vec<u8>, NoMemory>
    ensures { IfOk result (λ text. text.items ≡ flat_map report_sarif said.now) }
{
    let mut text = Vec::new(alloc);
    put_results(&mut text, said)?;
    Ok(text)
}

/// Appends the document of files, of the program of this version.
pub fn put_document(
    out: &mut Vec<u8>,
    alloc: Global,
    version: &[u8],
    said: &[Report],
) -> Result<(), NoMemory>
    ensures { OnOk result (out.new.items ≡ out.old.items ++ document_sarif version.now said.now) }
{
    let rules = rules_of(alloc, said)?;
    let notices = notices_of(alloc, said)?;
    let results = results_of(alloc, said)?;
    put(
        out,
        b"{\n  \"$schema\": \"https://json.schemastore.org/sarif-2.1.0.json\",\n  \"version\": \"2.1.0\",\n  \"runs\": [\n    {\n      \"tool\": {\n        \"driver\": {\n          \"name\": \"parbegin\",\n          \"rules\": ",
    )?;
    put_array(out, &rules, b"\n          ]")?;
    put(out, b",\n          \"version\": ")?;
    put_words(out, version)?;
    put(
        out,
        b"\n        }\n      },\n      \"invocations\": [\n        {\n          \"executionSuccessful\": ",
    )?;
    put_invocation(out, &notices)?;
    put(
        out,
        b"\n        }\n      ],\n      \"columnKind\": \"utf16CodeUnits\",\n      \"results\": ",
    )?;
    put_array(out, &results, b"\n      ]")?;
    put(out, b"\n    }\n  ]\n}\n")
}
