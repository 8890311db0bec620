// The words of the text for what has no arguments.
ghost use Rattle.std.specs.Prelude.{◌≡◌};
ghost use Rattle.script.specs.Texts.{kind_text, make_text, code_text, space_text, mark_text};

use sfs_base::{Kind, SpaceKind};
use tree_laws::Code;

pub fn make_word(kind: Kind) -> &'static str
    ensures { result.now ≡ make_text kind }
{
    match kind {
        Kind::File => "create",
        Kind::Directory => "mkdir",
    }
}

pub fn kind_word(kind: Kind) -> &'static str
    ensures { result.now ≡ kind_text kind }
{
    match kind {
        Kind::File => "file",
        Kind::Directory => "dir",
    }
}

pub fn mark_word(kind: Kind) -> &'static str
    ensures { result.now ≡ mark_text kind }
{
    match kind {
        Kind::File => "",
        Kind::Directory => "/",
    }
}

pub fn code_word(code: Code) -> &'static str
    ensures { result.now ≡ code_text code }
{
    match code {
        Code::NoEntry => "NoEntry",
        Code::Exists => "Exists",
        Code::NotDir => "NotDir",
        Code::IsDir => "IsDir",
        Code::NotEmpty => "NotEmpty",
        Code::Invalid => "Invalid",
        Code::NotPermitted => "NotPermitted",
        Code::TooManyLinks => "TooManyLinks",
        Code::FileTooBig => "FileTooBig",
        Code::DirFull => "DirFull",
        Code::NoNodes => "NoNodes",
    }
}

pub fn space_word(kind: SpaceKind) -> &'static str
    ensures { result.now ≡ space_text kind }
{
    match kind {
        SpaceKind::Inodes => "inodes",
        SpaceKind::Blocks => "blocks",
    }
}
