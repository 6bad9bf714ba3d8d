//! Reads settings, asks for one, sets another and prints them.
#![tactic(auto)]

use sj_owned::prelude::*;
use sj_owned::{Value, to_value};

fn main(rt: HostRuntime) -> anyhow::Result<()> {
    let alloc = rt.alloc();
    let mut text = br#"{"name":"kiosk","port":8080,"tags":["a","b"]}"#.to_vec(alloc)?;
    let mut settings = to_value(alloc, &mut text)?;

    let port = settings.get_u16("port").unwrap_or(80);
    println!(rt; "port {port}")?;

    settings.insert(String::from_str(alloc, "debug")?, Value::from(true))?;
    println!(rt; "{settings}")?;
    Ok(())
}
