ghost use Rattle.std.specs.Prelude.{◌≡◌, ◌≢◌, ◌↔◌, ◌<◌, ◌≤◌, IfOk, IfErr, IfSome, OnOk, OnErr, IsErrOf, IsTrue, Ok, Err, [], ◌∷◌, length, option_copied, true};
ghost use Rattle.std.specs.Str.{IsUtf8};
ghost use Rattle.base.specs.Answers.{Gives};
ghost use Rattle.base.specs.declared.limits.TheConstants.{MAX_TEXT_BYTES};
ghost use Rattle.path_tree.specs.Dicts.{put_new};
ghost use Rattle.path_tree.specs.Find.{boolean_of, child, child_at, child_count, get, key_at, kind_of, long_of, text_of};
ghost use Rattle.path_tree.specs.Grammar.{is_key};
ghost use Rattle.path_tree.specs.Lists.{is_null, list_of, pushed, pushed_front};
ghost use Rattle.path_tree.specs.Plain.{IsTree, tree_height, tree_size};
ghost use Rattle.path_tree.specs.Plain as plain;
ghost use Rattle.path_tree.specs.Put.{put};
ghost use Rattle.path_tree.specs.Refusals.{put_refusal, refusal};
ghost use Rattle.path_tree.specs.Remove.{remove};
ghost use Rattle.path_tree.specs.Same.{same_tree};
ghost use Rattle.path_tree.specs.Take.{IsTaken};
ghost use Rattle.path_tree.specs.declared.path.Term.TheVariants as term;
ghost use Rattle.path_tree.specs.declared.refused.Refused.TheVariants as refused;

mod adding;
mod comparing;
mod dicts;
mod lists;
mod planning;
mod putting;
mod removing;

use crate::key::Key;
use crate::kind::Kind;
use crate::path::{PutError, Term};
use crate::refused::Refused;
use base::Text;
use base::limits::MAX_TEXT_BYTES;
use std::alloc::{AllocError, Global};
use std::marker::Model;
use std::rc::Rc;

/// A tree of dicts, lists and properties, at most `MAX_TREE_SIZE` large and `MAX_TREE_HEIGHT` high,
/// or null. Contracts see a plain finite tree. A container holds no null. Containers are shared in
/// memory: each keeps its size and its height, a copy costs one count, and a change copies the
/// containers along one path.
#[cycle(tree)]
pub struct Tree {
    node: Node,
}

// By one call at each exit of who holds one: a derived Drop would let go of each part there.
impl Drop for Tree {
    #[cycle(letting_go)]
    fn drop(self) {
        let Tree { node: _node } = self;
    }
}

#[cycle(tree)]
#[derive(Drop)]
enum Node {
    Dict(Rc<Dict>),
    List(Rc<Items>),
    Text(Text),
    Long(i64),
    Boolean(bool),
    Undef,
    Null,
}

// The entries in byte order of their keys.
#[cycle(tree)]
#[derive(Drop)]
struct Dict {
    entries: Vec<Entry>,
    size: u64,
    height: u64,
}

#[cycle(tree)]
#[derive(Drop)]
struct Entry {
    key: Key,
    value: Tree,
}

#[cycle(tree)]
#[derive(Drop)]
struct Items {
    items: Vec<Tree>,
    size: u64,
    height: u64,
}

// A size and a height.
#[derive(Clone, Copy)]
struct Measure {
    size: u64,
    height: u64,
}

impl Model for Tree {
    ghost use Rattle.path_tree.specs.Plain.{Plain, tree_size};
    ghost use Rattle.path_tree.specs.Code.{plain_code};

    ghost Value = { Plain };

    ghost coded = { plain_code };

    ghost use Rattle.path_tree.specs.View.{node_seen, IsNode};

    ghost view = { λ t. node_seen t.node };

    ghost invariant = { λ t. IsNode t.node };

    ghost size = { tree_size };

    ghost use Rattle.path_tree.specs.Falls.{deep_le-size};

    ghost size_decreases = { λ t h. deep_le-size t.node };
}

impl Tree {
    /// A text. `TooLarge` exactly where it has over `MAX_TEXT_BYTES` bytes.
    pub fn text(alloc: Global, content: &str) -> Result<Tree, Refused>
        ensures value { IfOk result (λ t. t ≡ plain.text content.now) }
        ensures ok { OnOk result (length content.now ≤ MAX_TEXT_BYTES) }
        ensures large { IsErrOf result Refused.TooLarge ↔ (MAX_TEXT_BYTES < length content.now) }
        ensures others { IfErr result (λ e. e ≢ Refused.TooLarge → e ≡ Refused.Memory) }
    {
        if content.len() > MAX_TEXT_BYTES {
            return Err(Refused::TooLarge);
        }
        let text = Text::new(alloc, content)?;
        Ok(Tree {
            node: Node::Text(text),
        })
    }

    /// The same of a text in memory, which the tree shares.
    pub fn shared_text(content: &Text) -> Result<Tree, Refused>
        ensures value { IfOk result (λ t. t ≡ plain.text content.now) }
        ensures ok { OnOk result (length content.now ≤ MAX_TEXT_BYTES) }
        ensures large { IsErrOf result Refused.TooLarge ↔ (MAX_TEXT_BYTES < length content.now) }
        ensures others { IfErr result (λ e. e ≢ Refused.TooLarge → e ≡ Refused.Memory) }
    {
        if content.as_str().len() > MAX_TEXT_BYTES {
            return Err(Refused::TooLarge);
        }
        Ok(Tree {
            node: Node::Text(content.share()?),
        })
    }

    /// A long.
    pub fn long(value: i64) -> Tree
        ensures { result ≡ plain.long value }
    {
        Tree {
            node: Node::Long(value),
        }
    }

    /// A boolean.
    pub fn boolean(value: bool) -> Tree
        ensures { result ≡ plain.boolean value }
    {
        Tree {
            node: Node::Boolean(value),
        }
    }

    /// The value that is not set.
    pub fn undef() -> Tree
        ensures { result ≡ plain.undef }
    {
        Tree { node: Node::Undef }
    }

    /// The value that removes where it is assigned. No container holds it.
    pub fn null() -> Tree
        ensures { result ≡ plain.null }
    {
        Tree { node: Node::Null }
    }

    /// A dict without fields.
    pub fn empty_dict(alloc: Global) -> Result<Tree, AllocError>
        ensures { IfOk result (λ t. t ≡ plain.dict plain.no_fields) }
    {
        let dict = Dict {
            entries: Vec::new(alloc),
            size: 1,
            height: 1,
        };
        Ok(Tree {
            node: Node::Dict(Rc::new(alloc, dict)?),
        })
    }

    /// The same with room for so many fields, which are put into it without a move of the others in
    /// memory.
    pub fn dict_with_room(alloc: Global, room: usize) -> Result<Tree, AllocError>
        ensures { IfOk result (λ t. t ≡ plain.dict plain.no_fields) }
    {
        let dict = Dict {
            entries: Vec::with_capacity(alloc, room)?,
            size: 1,
            height: 1,
        };
        Ok(Tree {
            node: Node::Dict(Rc::new(alloc, dict)?),
        })
    }

    /// A list without items.
    pub fn empty_list(alloc: Global) -> Result<Tree, AllocError>
        ensures { IfOk result (λ t. t ≡ plain.list plain.no_items) }
    {
        let list = Items {
            items: Vec::new(alloc),
            size: 1,
            height: 1,
        };
        Ok(Tree {
            node: Node::List(Rc::new(alloc, list)?),
        })
    }

    /// The list of these trees. `BadArgument` exactly where one of them is null, and then
    /// `TooLarge` exactly where the list is larger than `MAX_TREE_SIZE` or higher than
    /// `MAX_TREE_HEIGHT`.
    pub fn list(alloc: Global, items: Vec<Tree>) -> Result<Tree, Refused>
        ensures { Gives (λ t. t) refusal result (list_of items.items) }
    {
        lists::list_of(alloc, items)
    }

    /// What it is at its root.
    pub fn kind(&self) -> Kind
        ensures kind { result ≡ kind_of self.now }
        ensures tree { IsTree self.now }
    {
        match &self.node {
            Node::Dict(_) => Kind::Dict,
            Node::List(_) => Kind::List,
            Node::Text(_) => Kind::Text,
            Node::Long(_) => Kind::Long,
            Node::Boolean(_) => Kind::Bool,
            Node::Undef => Kind::Undef,
            Node::Null => Kind::Null,
        }
    }

    /// Whether it is null.
    pub fn is_null(&self) -> bool
        ensures null { result ≡ is_null self.now }
        ensures tree { IsTree self.now }
    {
        matches!(self.kind(), Kind::Null)
    }

    /// The text, where it is one.
    pub fn as_text(&self) -> Option<&str>
        ensures value { option_copied result ≡ text_of self.now }
        ensures utf8 { IfSome result (λ t. IsUtf8 t.now) }
        ensures short { IfSome result (λ t. length t.now ≤ MAX_TEXT_BYTES) }
    {
        match &self.node {
            Node::Text(text) => Some(text.as_str()),
            _ => None,
        }
    }

    /// The same text as one that can be shared, and whose parts can be.
    pub fn text_handle(&self) -> Option<&Text>
        ensures value { option_copied result ≡ text_of self.now }
        ensures short { IfSome result (λ t. length t.now ≤ MAX_TEXT_BYTES) }
    {
        match &self.node {
            Node::Text(text) => Some(text),
            _ => None,
        }
    }

    /// The number, where it is a long.
    pub fn as_long(&self) -> Option<i64>
        ensures { result ≡ long_of self.now }
    {
        match &self.node {
            Node::Long(value) => Some(*value),
            _ => None,
        }
    }

    /// Where it is a boolean, which.
    pub fn as_boolean(&self) -> Option<bool>
        ensures { result ≡ boolean_of self.now }
    {
        match &self.node {
            Node::Boolean(value) => Some(*value),
            _ => None,
        }
    }

    /// How many items a dict or a list has; 0 for another tree.
    pub fn len(&self) -> usize
        ensures { result ≡ child_count self.now }
    {
        match &self.node {
            Node::Dict(dict) => dicts::count(&dict.entries),
            Node::List(list) => lists::count(&list.items),
            _ => 0,
        }
    }

    /// The i-th key of a dict, in byte order.
    pub fn key_at(&self, i: usize) -> Option<&str>
        ensures value { option_copied result ≡ key_at i self.now }
        ensures key { IfSome result (λ k. is_key k.now ≡ true) }
        ensures utf8 { IfSome result (λ k. IsUtf8 k.now) }
    {
        match self.key_handle(i) {
            Some(key) => Some(key.as_str()),
            None => None,
        }
    }

    /// The same key as one that can be shared.
    pub fn key_handle(&self, i: usize) -> Option<&Key>
        ensures { option_copied result ≡ key_at i self.now }
    {
        match &self.node {
            Node::Dict(dict) => dicts::key_at(&dict.entries, i),
            _ => None,
        }
    }

    /// What stands at a key of a dict. It takes no memory. `None` exactly where the tree is no dict
    /// or has no such key. It is smaller than the tree.
    pub fn field(&self, key: &str) -> Option<&Tree>
        ensures value { option_copied result ≡ child (term.Key key.now) self.now }
        ensures smaller { IfSome result (λ t. tree_size t.now < tree_size self.now) }
    {
        let field = self.value_of(key)?;
        Some(field)
    }

    fn value_of(&self, key: &str) -> Option<&Tree>
        ensures { option_copied result ≡ child (term.Key key.now) self.now }
    {
        match &self.node {
            Node::Dict(dict) => dicts::find_text(&dict.entries, key),
            _ => None,
        }
    }

    /// The i-th child, of a dict in byte order of its keys. It is smaller than the tree.
    pub fn child_at(&self, i: usize) -> Option<&Tree>
        ensures value { option_copied result ≡ child_at i self.now }
        ensures smaller { IfSome result (λ t. tree_size t.now < tree_size self.now) }
    {
        let child = self.ith(i)?;
        Some(child)
    }

    fn ith(&self, i: usize) -> Option<&Tree>
        ensures { option_copied result ≡ child_at i self.now }
    {
        match &self.node {
            Node::Dict(dict) => dicts::value_at(&dict.entries, i),
            Node::List(list) => lists::item_at(&list.items, i),
            Node::Text(_) | Node::Long(_) | Node::Boolean(_) | Node::Undef | Node::Null => None,
        }
    }

    /// 1 and the sizes of the items; of a text of n bytes 1 + n / 64, rounded down. At most
    /// `MAX_TREE_SIZE`.
    pub fn size(&self) -> u64
        ensures size { result ≡ tree_size self.now }
        ensures tree { IsTree self.now }
    {
        match &self.node {
            Node::Dict(dict) => dict.size,
            Node::List(list) => list.size,
            Node::Text(text) => 1 + (text.as_str().len() as u64) / 64,
            Node::Long(_) | Node::Boolean(_) | Node::Undef | Node::Null => 1,
        }
    }

    /// 1 and the height of the highest item. At most `MAX_TREE_HEIGHT`.
    pub fn height(&self) -> u64
        ensures height { result ≡ tree_height self.now }
        ensures tree { IsTree self.now }
    {
        match &self.node {
            Node::Dict(dict) => dict.height,
            Node::List(list) => list.height,
            Node::Text(_) | Node::Long(_) | Node::Boolean(_) | Node::Undef | Node::Null => 1,
        }
    }

    /// What a term finds. `None` exactly where it finds nothing. It is smaller than the tree.
    pub fn child(&self, term: &Term) -> Option<&Tree>
        ensures value { option_copied result ≡ child term.now self.now }
        ensures smaller { IfSome result (λ t. tree_size t.now < tree_size self.now) }
    {
        let child = self.found(term)?;
        Some(child)
    }

    fn found(&self, term: &Term) -> Option<&Tree>
        ensures { option_copied result ≡ child term.now self.now }
    {
        match (&self.node, term) {
            (Node::Dict(dict), Term::Key(key)) => dicts::find(&dict.entries, key),
            (Node::List(list), Term::Index(index)) => lists::item_at(&list.items, *index as usize),
            _ => None,
        }
    }

    /// What stands at a path. `None` exactly where a term finds nothing.
    pub fn get(&self, terms: &[Term]) -> Option<&Tree>
        ensures value { option_copied result ≡ get terms.now self.now }
        ensures smaller { IfSome result (λ t. tree_size t.now ≤ tree_size self.now) }
    {
        let mut at = self;
        for term in terms {
            match at.child(term) {
                None => return None,
                Some(child) => at = child,
            }
        }
        Some(at)
    }

    /// An equal tree, which shares its containers with this one.
    pub fn copy(&self) -> Result<Tree, AllocError>
        ensures { IfOk result (λ t. t ≡ self.now) }
    {
        let node = match &self.node {
            Node::Dict(dict) => Node::Dict(dict.clone()?),
            Node::List(list) => Node::List(list.clone()?),
            Node::Text(text) => Node::Text(text.share()?),
            Node::Long(value) => Node::Long(*value),
            Node::Boolean(value) => Node::Boolean(*value),
            Node::Undef => Node::Undef,
            Node::Null => Node::Null,
        };
        Ok(Tree { node })
    }

    /// Puts a value at a path. At a dict a key goes on, and an index is `IndexInDict`. At a list an
    /// index goes on, and a key is `KeyInList`. At an undef or a missing child a dict or a list is
    /// made, as the term asks. At a property it is `ThroughProperty` with the number of terms
    /// passed. A list that is put into past its end is filled with undef. The walk's refusal comes
    /// first, then `TooLarge`, then `TooHigh`. A tree that is null counts as undef. On every
    /// refusal the tree is as before.
    pub fn put(&mut self, alloc: Global, terms: &[Term], value: Tree) -> Result<(), PutError>
        requires { value ≢ plain.null }
        ensures gives { Gives (λ _. self.new) put_refusal result (put terms.now value self.old) }
        ensures before { OnErr result (self.new ≡ self.old) }
    {
        self.admit(terms, &value)?;
        putting::put_in(alloc, self, terms, value)?;
        Ok(())
    }

    /// Puts a value at a key of a dict, in place, where the key is not there; else the dict stays
    /// as it is. The key is looked for once. `BadArgument` where the tree is no dict, and then
    /// `TooLarge` where the dict would be larger than `MAX_TREE_SIZE` or higher than
    /// `MAX_TREE_HEIGHT`.
    pub fn put_new(&mut self, alloc: Global, key: &Key, value: &Tree) -> Result<(), Refused>
        requires { value.now ≢ plain.null }
        ensures gives { Gives (λ _. self.new) refusal result
            (put_new key.now value.now self.old) }
        ensures before { OnErr result (self.new ≡ self.old) }
    {
        match &mut self.node {
            Node::Dict(dict) => adding::put_new(alloc, dict, key, value),
            _ => Err(Refused::BadArgument),
        }
    }

    /// Removes what stands at a path. What is not there is left. Later items of a list move down.
    pub fn remove(&mut self, alloc: Global, terms: &[Term]) -> Result<(), AllocError>
        requires { 0 < length terms.now }
        ensures ok { OnOk result (self.new ≡ remove terms.now self.old) }
        ensures before { OnErr result (self.new ≡ self.old) }
    {
        match self.get(terms) {
            None => Ok(()),
            Some(_) => removing::remove_in(alloc, self, terms),
        }
    }

    /// Takes out what stands at a path, and leaves an undef in its place. `None` exactly where a
    /// term finds nothing; the tree is then as before. A put at the path after it leaves what a put
    /// in place of both would, and what is changed between them is held by nothing else: so an item
    /// of an item is changed without a copy.
    pub fn take(&mut self, alloc: Global, terms: &[Term]) -> Result<Option<Tree>, AllocError>
        ensures taken { IfOk result (λ found. IsTaken terms.now self.old found self.new) }
        ensures before { OnErr result (self.new ≡ self.old) }
    {
        let Some(found) = self.get(terms) else {
            return Ok(None);
        };
        let found = found.copy()?;
        let _measure = self.measure();
        putting::put_in(alloc, self, terms, Tree::undef())?;
        Ok(Some(found))
    }

    /// Adds an item behind the last of a list, in place. `BadArgument` where the tree is no list or
    /// the value is null, and then `TooLarge` where the list would be larger than `MAX_TREE_SIZE`
    /// or higher than `MAX_TREE_HEIGHT`.
    pub fn push(&mut self, alloc: Global, value: Tree) -> Result<(), Refused>
        ensures gives { Gives (λ _. self.new) refusal result (pushed value self.old) }
        ensures before { OnErr result (self.new ≡ self.old) }
    {
        match &mut self.node {
            Node::List(list) => lists::push(alloc, list, value),
            _ => Err(Refused::BadArgument),
        }
    }

    /// Adds an item in front of the first of a list, in place. Refusals as of `push`.
    pub fn push_front(&mut self, alloc: Global, value: Tree) -> Result<(), Refused>
        ensures gives { Gives (λ _. self.new) refusal result (pushed_front value self.old) }
        ensures before { OnErr result (self.new ≡ self.old) }
    {
        match &mut self.node {
            Node::List(list) => lists::push_front(alloc, list, value),
            _ => Err(Refused::BadArgument),
        }
    }

    /// Whether the two trees are equal.
    pub fn same(&self, other: &Tree) -> bool
        ensures same { IsTrue result ↔ (self.now ≡ other.now) }
        ensures test { result ≡ same_tree self.now other.now }
    {
        self.equals(other)
    }

    #[cycle(same)]
    fn equals(&self, other: &Tree) -> bool
        ensures { IsTrue result ↔ (self.now ≡ other.now) }
    {
        if self.size() != other.size() || self.height() != other.height() {
            return false;
        }
        comparing::same_node(&self.node, &other.node)
    }
}

impl Clone for Tree {
    ghost is_clone = { λ t copy. copy ≡ t };

    fn clone(&self) -> Result<Tree, AllocError> {
        self.copy()
    }
}
