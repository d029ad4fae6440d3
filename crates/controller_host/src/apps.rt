//! The applications of a host, one after the other.
ghost use Rattle.std.specs.Prelude.{◌≡◌, ◌++◌, All, map, IfOk, OnOk, OnErr};
ghost use Rattle.controller_api.specs.Reaction.{IsValidUpItem};
ghost use Rattle.controller_host.specs.Hosting.{as_started, reacting, reacting_all};
ghost use Rattle.controller_host.specs.Undoing.{IsApp};

use crate::app::App;
use controller_api::{Outbox, UpItem};
use std::alloc::{AllocError, Global};

/// What holds of all applications: a fact for proofs.
pub(crate) fn parts_of_all(apps: &[App])
    ensures { All IsApp apps.now }
{
    for app in apps {
        app.parts();
    }
}

/// Sends what answers an item. After want of memory some of it may have been sent.
pub(crate) fn send_all(apps: &[App], item: &UpItem, out: &mut Outbox) -> Result<(), AllocError>
    requires { IsValidUpItem item.now }
    ensures { OnOk result (out.new ≡ out.old ++ (reacting_all apps.now item.now).sent) }
{
    for app in apps {
        app.send(item, out)?;
    }
    Ok(())
}

/// Each application comes to the state after an item. After want of memory all are as they were.
#[cycle(hearing)]
pub(crate) fn hear_all(apps: &mut [App], item: &UpItem) -> Result<(), AllocError>
    requires { IsValidUpItem item.now }
    ensures state { OnOk result (apps.new ≡ (reacting_all apps.old item.now).state) }
    ensures err { OnErr result (apps.new ≡ apps.old) }
{
    match apps.split_first_mut() {
        Some((first, rest)) => hear_both(first, rest, item),
        None => Ok(()),
    }
}

/// An application comes to the state after an item, and so do the ones after it. One that may want memory hears first and goes
/// back where there is none for another; one that wants none hears last.
#[cycle(hearing)]
fn hear_both(app: &mut App, rest: &mut [App], item: &UpItem) -> Result<(), AllocError>
    requires { IsValidUpItem item.now }
    ensures app { OnOk result (app.new ≡ (reacting app.old item.now).state) }
    ensures rest { OnOk result (rest.new ≡ (reacting_all rest.old item.now).state) }
    ensures app_err { OnErr result (app.new ≡ app.old) }
    ensures rest_err { OnErr result (rest.new ≡ rest.old) }
{
    if !app.wants_memory(item) {
        hear_all(rest, item)?;
        return app.hear(item);
    }
    app.parts();
    let before = app.before(item);
    app.hear(item)?;
    match hear_all(rest, item) {
        Ok(()) => Ok(()),
        Err(error) => {
            app.undo(item, before);
            Err(error)
        }
    }
}

/// Each application as it starts.
pub(crate) fn fresh_all(alloc: Global, apps: &[App]) -> Result<Vec<App>, AllocError>
    ensures { IfOk result (λ fresh. fresh.items ≡ map as_started apps.now) }
{
    let mut fresh = Vec::new(alloc);
    for app in apps {
        fresh.push(app.fresh()?)?;
    }
    Ok(fresh)
}

/// A second one of each application.
pub(crate) fn copy_all(alloc: Global, apps: &[App]) -> Result<Vec<App>, AllocError>
    ensures { IfOk result (λ copies. copies.items ≡ apps.now) }
{
    let mut copies = Vec::new(alloc);
    for app in apps {
        copies.push(app.copy()?)?;
    }
    Ok(copies)
}
