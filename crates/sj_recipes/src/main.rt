//! The recipes of docs/COOKBOOK.md, each run once. What they print stands in `stdout`.
#![tactic(auto)]

mod fault;
mod heads;
mod known_keys;
mod programs;
mod recipes;

use programs::edits::{Edit, edit_all};
use programs::filter::filter;
use recipes::*;
use sj_owned::Value;
use sj_owned::prelude::*;
use sj_path::pointer;
use std::io;

const SETTINGS: &str = r#"{"server":{"port":8080},"port":70000,"hosts":["a"],"topic":"news"}"#;

/// What reads.
fn reads(rt: &(impl Print + AllocGlobal)) -> anyhow::Result<()> {
    let alloc = rt.alloc();
    let settings = read_and_keep::read_settings(alloc, SETTINGS)?;
    println!(rt; "{}", settings.encode(alloc)?)?;
    println!(rt; "{:?}", settings.get_u16("port"))?;
    match read_one_number::port_of(&settings) {
        Ok(port) => println!(rt; "{port:?}")?,
        Err(fault) => println!(rt; "{fault}")?,
    }
    println!(rt; "{}", defaults::host_of(&settings))?;
    Ok(())
}

/// What reaches nested members.
fn reaches(rt: &(impl Print + AllocGlobal)) -> anyhow::Result<()> {
    let alloc = rt.alloc();
    let settings = read_and_keep::read_settings(alloc, SETTINGS)?;
    println!(rt; "{:?}", reach_a_nested_member::server_port(&settings))?;
    let port = reach_a_nested_member::port_at(alloc, &settings, "/server/port")?;
    println!(rt; "{port:?}")?;
    let servers = r#"{"servers":{"a/b":{"port":8081}}}"#;
    let servers = read_and_keep::read_settings(alloc, servers)?;
    println!(rt; "{:?}", a_pointer_of_keys::port_of(alloc, &servers, "a/b")?)?;
    Ok(())
}

/// What heeds repeated keys, takes apart, looks up, and tells where a text is wrong.
fn looks(rt: &(impl Print + AllocGlobal)) -> anyhow::Result<()> {
    let alloc = rt.alloc();
    let last = the_last_of_repeated_keys::read_last(alloc, r#"{"a":1,"b":2,"a":3}"#)?;
    println!(rt; "{}", last.encode(alloc)?)?;
    let hosts = read_and_keep::read_settings(alloc, r#"["a",1,"b"]"#)?;
    println!(rt; "{:?}", take_a_document_apart::words(alloc, hosts)?)?;
    let documents = [read_and_keep::read_settings(alloc, SETTINGS)?, last];
    match look_one_key_up_in_many::first_of_topic(&documents, "news") {
        Some(found) => println!(rt; "{}", found.encode(alloc)?)?,
        None => println!(rt; "none")?,
    }
    match where_a_text_is_wrong::read_or_tell(alloc, "{\n  \"a\": tru}") {
        Ok(document) => println!(rt; "{document}")?,
        Err(fault) => println!(rt; "{fault}")?,
    }
    if let Some(fault) = where_a_text_is_wrong::confirmed_place(alloc, "{\n  \"a\": tru}")? {
        println!(rt; "{} {fault}", fault.at)?;
    }
    Ok(())
}

/// What changes members.
fn changes(rt: &(impl Print + AllocGlobal)) -> anyhow::Result<()> {
    let alloc = rt.alloc();
    let mut settings = read_and_keep::read_settings(alloc, SETTINGS)?;
    set_a_member::set_debug(alloc, &mut settings)?;
    let is_set = replace_a_nested_value::set_port(alloc, &mut settings, 9090)?;
    println!(rt; "{is_set}")?;
    append_an_item::add_host(alloc, &mut settings, "b")?;
    edit_at_a_pointer::set_in_server(alloc, &mut settings, "name", "kiosk")?;
    println!(rt;
        "{}",
        remove_a_member::remove_topic(&mut settings)?.is_some()
    )?;
    println!(rt; "{}", settings.encode(alloc)?)?;
    match keep_what_was_refused::set_or_keep(&mut settings, Value::from(1_u8)) {
        Ok(()) => println!(rt; "set")?,
        Err(value) => println!(rt; "kept {value}")?,
    }
    Ok(())
}

/// What changes items, copies, and objects on the way.
fn further_changes(rt: &(impl Print + AllocGlobal)) -> anyhow::Result<()> {
    let alloc = rt.alloc();
    let mut settings = read_and_keep::read_settings(alloc, SETTINGS)?;
    an_item_at_a_position::insert_host(alloc, &mut settings, 0, "b")?;
    an_item_at_a_position::insert_host(alloc, &mut settings, 2, "c")?;
    println!(rt; "{}", an_item_at_a_position::remove_host(&mut settings, 1)?)?;
    match an_item_at_a_position::remove_host(&mut settings, 2) {
        Ok(host) => println!(rt; "{host}")?,
        Err(fault) => println!(rt; "{fault}")?,
    }
    println!(rt; "{}", copy_a_document::with_debug(alloc, &settings)?)?;
    println!(rt; "{settings}")?;
    let on = Value::from(true);
    make_what_is_missing_on_the_way::set_at(alloc, &mut settings, "/server/tls/on", on)?;
    println!(rt; "{settings}")?;
    let path = "/topic/name/on";
    match make_what_is_missing_on_the_way::set_at(alloc, &mut settings, path, Value::null()) {
        Ok(()) => println!(rt; "set")?,
        Err(fault) => println!(rt; "{fault}")?,
    }
    Ok(())
}

/// What a patch changes, and what one leaves that fails.
fn patches(rt: &(impl Print + AllocGlobal)) -> anyhow::Result<()> {
    let alloc = rt.alloc();
    let mut settings = read_and_keep::read_settings(alloc, r#"{"foo":["bar","baz"]}"#)?;
    let add = r#"[{"op":"add","path":"/foo/1","value":"qux"}]"#;
    apply_a_patch::apply_patch(alloc, &mut settings, add)?;
    println!(rt; "{settings}")?;
    let failing = r#"[{"op":"remove","path":"/foo/0"},{"op":"test","path":"/foo/0","value":1}]"#;
    match apply_a_patch::apply_patch(alloc, &mut settings, failing) {
        Ok(()) => println!(rt; "patched")?,
        Err(fault) => println!(rt; "{fault}, {settings}")?,
    }
    Ok(())
}

/// What goes over parts, and puts one document over another.
fn merges(rt: &(impl Print + AllocGlobal)) -> anyhow::Result<()> {
    let alloc = rt.alloc();
    let defaults = read_and_keep::read_settings(alloc, r#"{"port":80,"log":{"level":"info"}}"#)?;
    let mut settings = defaults.clone()?;
    let site = r#"{"log":{"to":"/var/log"},"port":null}"#;
    merge_one_document_over_another::put_over(alloc, &mut settings, site)?;
    go_over_members_and_items::tell_parts(rt, &settings)?;
    let back = merge_one_document_over_another::difference(alloc, &settings, &defaults)?;
    if let Some(back) = back {
        println!(rt; "{back}")?;
    }
    let items = read_and_keep::read_settings(alloc, "[1,[2]]")?;
    go_over_members_and_items::tell_parts(rt, &items)?;
    Ok(())
}

/// What keeps some members, and counts texts.
fn sifts(rt: &(impl Print + AllocGlobal)) -> anyhow::Result<()> {
    let alloc = rt.alloc();
    let text = r#"{"topic":"news","seen":null,"at":7,"by":null}"#;
    let mut message = read_and_keep::read_settings(alloc, text)?;
    keep_some_members::drop_nulls(&mut message);
    println!(rt; "{message}")?;
    let other = read_and_keep::read_settings(alloc, r#"{"a":1}"#)?;
    let messages = [message.clone()?, other, message];
    println!(rt; "{:?}", count_texts::topics(alloc, &messages)?)?;
    Ok(())
}

/// What prints, compares and builds.
fn prints(rt: &(impl Print + AllocGlobal)) -> anyhow::Result<()> {
    let alloc = rt.alloc();
    let made = a_document_of_literals::settings(alloc)?;
    println!(rt; "{}", print::to_line(alloc, &made)?)?;
    println!(rt; "{}", print_for_people::to_pretty(alloc, &made)?)?;
    println!(rt; "{}", print::log(alloc, &made)?.len())?;
    println!(rt; "{}", make_a_document::ports(alloc, &[80, 443])?)?;
    let counts = vec![in alloc;
        (String::from_str(alloc, "b")?, 1),
        (String::from_str(alloc, "a")?, 2),
    ]?;
    println!(rt; "{}", make_a_document::counts(alloc, counts)?)?;
    println!(rt;
        "{}",
        compare::is_same_text(alloc, "[1, {\"a\":2}]", "[1,{\"a\":2}]")?
    )?;
    println!(rt; "{}", compare::has_topic(&made, "news"))?;
    println!(rt;
        "{}",
        a_type_of_my_own::count(alloc, "[1,[2,3],{\"a\":4,\"a\":5}]")?
    )?;
    Ok(())
}

/// What prints the same for documents that are the same.
fn signs(rt: &(impl Print + AllocGlobal)) -> anyhow::Result<()> {
    let alloc = rt.alloc();
    let settings = read_and_keep::read_settings(alloc, SETTINGS)?;
    println!(rt; "{}", sign_a_document::text_to_sign(alloc, &settings)?)?;
    let moved = r#"{"topic": "news", "hosts": ["a"], "port": 70000, "server": {"port": 8080}}"#;
    let moved = read_and_keep::read_settings(alloc, moved)?;
    println!(rt; "{}", sign_a_document::text_to_sign(alloc, &moved)?)?;
    let bytes = sign_a_document::bytes_to_sign(alloc, "kiosk", &settings)?;
    println!(rt; "{}", bytes.len())?;
    Ok(())
}

/// The callers with contracts.
fn proves(rt: &(impl Print + AllocGlobal)) -> anyhow::Result<()> {
    let alloc = rt.alloc();
    let mut text = br#"{"port":443,"port":80}"#.to_vec(alloc)?;
    println!(rt; "{:?}", a_contract_of_my_own::port_of(alloc, &mut text)?)?;
    let mut document = read_and_keep::read_settings(alloc, SETTINGS)?;
    let place = pointer(alloc, "/hosts/0")?;
    let is_set = a_contract_of_my_own::patched(&mut document, &place, Value::null());
    println!(rt; "{is_set} {document}")?;
    Ok(())
}

/// What passes on.
fn passes(rt: &(impl Input + Print + AllocGlobal)) -> anyhow::Result<()> {
    let alloc = rt.alloc();
    let news = pass_a_message_on::pass_on(alloc, r#"{"topic":"news","a":1,"a":2}"#)?;
    println!(rt; "{news}")?;
    let mail = pass_a_message_on::pass_on(alloc, r#"{"topic":"mail","a":1,"a":2}"#)?;
    println!(rt; "{mail}")?;
    lines_of_messages::tell_topics(rt, "{\"topic\":\"news\"}\n\n[1,]\n{\"topic\":\"mail\"}\n")?;
    messages_from_standard_input::tell_input(rt)?;
    println!(rt;
        "{:?} {:?}",
        known_keys::looks(alloc)?,
        known_keys::makes(alloc)?
    )?;
    Ok(())
}

/// The first two of the small programs.
fn runs(rt: &(impl Print + AllocGlobal)) -> anyhow::Result<()> {
    let alloc = rt.alloc();
    let input =
        b"{\"topic\": \"news\", \"a\":1}\n{\"topic\":}\n\n{\"topic\":\"mail\"}\r\n{ \"topic\":\"news\" }";
    filter(
        alloc,
        input.as_slice(),
        "news",
        &mut io::writer(rt),
        &mut io::writer(rt),
    )?;
    for text in ["{\n  \"a\":}", "{\"a\":1}", "[]"] {
        match programs::settings::set(alloc, "settings.json", text, 8080) {
            Ok(settings) => println!(rt; "{settings}")?,
            Err(fault) => println!(rt; "{fault}")?,
        }
    }
    Ok(())
}

/// The third.
fn edits(rt: &(impl Print + AllocGlobal)) -> anyhow::Result<()> {
    let alloc = rt.alloc();
    let mut settings = read_and_keep::read_settings(alloc, SETTINGS)?;
    let edits = vec![in alloc;
        Edit::Replace("/server/port", Value::from(9090_u16)),
        Edit::Insert("/hosts", 1, Value::try_make(alloc, "b")?),
        Edit::Remove("/hosts", 0),
    ]?;
    edit_all(alloc, &mut settings, edits)?;
    println!(rt; "{settings}")?;
    let edits = vec![in alloc;
        Edit::Insert("/hosts", 0, Value::null()),
        Edit::Remove("/hosts", 2),
    ]?;
    match edit_all(alloc, &mut settings, edits) {
        Ok(()) => println!(rt; "edited")?,
        Err(fault) => println!(rt; "{fault}")?,
    }
    println!(rt; "{settings}")?;
    Ok(())
}

/// The examples at the heads of the libraries.
fn shows(rt: &(impl Input + Print + AllocGlobal)) -> anyhow::Result<()> {
    heads::scalars(rt)?;
    heads::tapes(rt)?;
    heads::maps(rt)?;
    heads::owned_documents(rt)?;
    heads::documents(rt)?;
    heads::borrowed_documents(rt)?;
    heads::lazy_values(rt)?;
    heads::pointers(rt)?;
    heads::lines(rt)?;
    heads::streams(rt)?;
    heads::line_readers(rt)?;
    heads::pieces(rt)
}

fn main(rt: HostRuntime) -> anyhow::Result<()> {
    reads(&rt)?;
    reaches(&rt)?;
    looks(&rt)?;
    changes(&rt)?;
    further_changes(&rt)?;
    patches(&rt)?;
    merges(&rt)?;
    sifts(&rt)?;
    prints(&rt)?;
    signs(&rt)?;
    proves(&rt)?;
    passes(&rt)?;
    runs(&rt)?;
    edits(&rt)?;
    shows(&rt)
}
