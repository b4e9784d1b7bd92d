ghost use Rattle.std.specs.Prelude.{◌≡◌, ◌<◌, ◌+◌, ◌++◌, OnOk};
ghost use Rattle.json.specs.Tree.{json_tokens};
ghost use Rattle.path_tree.specs.Find.{kind_of, child_count};
ghost use Rattle.path_tree.specs.declared.kind.Kind.TheVariants as kind;
ghost use Rattle.json_profile.specs.Json.{json};
ghost use Rattle.json_profile.specs.Children.{fields_tokens, children_tokens};

use json::Writer;
use path_tree::{Kind, Tree};
use std::alloc::AllocError;

/// Writes a tree as JSON.
#[cycle(writing)]
pub fn write(out: &mut Writer, tree: &Tree) -> Result<(), AllocError>
    ensures ok { OnOk result (out.new.tokens ≡ out.old.tokens ++ json_tokens (json tree.now)) }
    ensures before { out.new.before ≡ out.old.before }
{
    match tree.kind() {
        Kind::Dict => write_dict(out, tree),
        Kind::List => write_list(out, tree),
        Kind::Text => write_text(out, tree),
        Kind::Long => write_long(out, tree),
        Kind::Bool => write_boolean(out, tree),
        Kind::Undef | Kind::Null => out.null(),
    }
}

/// The fields of a dict stand in byte order of keys.
#[cycle(writing)]
fn write_dict(out: &mut Writer, tree: &Tree) -> Result<(), AllocError>
    requires { kind_of tree.now ≡ kind.Dict }
    ensures ok { OnOk result (out.new.tokens ≡ out.old.tokens ++ json_tokens (json tree.now)) }
    ensures before { out.new.before ≡ out.old.before }
{
    out.begin_object()?;
    for i in 0..tree.len() {
        write_field(out, tree, i)?;
    }
    out.end_object()?;
    Ok(())
}

#[cycle(writing)]
fn write_field(out: &mut Writer, tree: &Tree, i: usize) -> Result<(), AllocError>
    requires dict { kind_of tree.now ≡ kind.Dict }
    requires within { i < child_count tree.now }
    ensures ok { OnOk result
        (out.new.tokens ++ fields_tokens (i + 1) tree.now ≡ out.old.tokens
        ++ fields_tokens i tree.now) }
    ensures before { out.new.before ≡ out.old.before }
{
    let Some(key) = tree.key_at(i) else {
        unreachable!();
    };
    let Some(child) = tree.child_at(i) else {
        unreachable!();
    };
    out.key(key)?;
    write(out, child)?;
    Ok(())
}

#[cycle(writing)]
fn write_list(out: &mut Writer, tree: &Tree) -> Result<(), AllocError>
    requires { kind_of tree.now ≡ kind.List }
    ensures ok { OnOk result (out.new.tokens ≡ out.old.tokens ++ json_tokens (json tree.now)) }
    ensures before { out.new.before ≡ out.old.before }
{
    out.begin_array()?;
    for i in 0..tree.len() {
        write_item(out, tree, i)?;
    }
    out.end_array()?;
    Ok(())
}

#[cycle(writing)]
fn write_item(out: &mut Writer, tree: &Tree, i: usize) -> Result<(), AllocError>
    requires list { kind_of tree.now ≡ kind.List }
    requires within { i < child_count tree.now }
    ensures ok { OnOk result
        (out.new.tokens ++ children_tokens (i + 1) tree.now ≡ out.old.tokens
        ++ children_tokens i tree.now) }
    ensures before { out.new.before ≡ out.old.before }
{
    let Some(child) = tree.child_at(i) else {
        unreachable!();
    };
    write(out, child)?;
    Ok(())
}

fn write_text(out: &mut Writer, tree: &Tree) -> Result<(), AllocError>
    requires { kind_of tree.now ≡ kind.Text }
    ensures ok { OnOk result (out.new.tokens ≡ out.old.tokens ++ json_tokens (json tree.now)) }
    ensures before { out.new.before ≡ out.old.before }
{
    let Some(text) = tree.as_text() else {
        unreachable!();
    };
    out.string(text)
}

fn write_long(out: &mut Writer, tree: &Tree) -> Result<(), AllocError>
    requires { kind_of tree.now ≡ kind.Long }
    ensures ok { OnOk result (out.new.tokens ≡ out.old.tokens ++ json_tokens (json tree.now)) }
    ensures before { out.new.before ≡ out.old.before }
{
    let Some(value) = tree.as_long() else {
        unreachable!();
    };
    out.i64(value)
}

fn write_boolean(out: &mut Writer, tree: &Tree) -> Result<(), AllocError>
    requires { kind_of tree.now ≡ kind.Bool }
    ensures ok { OnOk result (out.new.tokens ≡ out.old.tokens ++ json_tokens (json tree.now)) }
    ensures before { out.new.before ≡ out.old.before }
{
    let Some(value) = tree.as_boolean() else {
        unreachable!();
    };
    out.boolean(value)
}
