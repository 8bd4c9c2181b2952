// A row of cells in one block. Several owners may each have some of its cells.
ghost use Rattle.std.specs.Prelude.{◌≡◌, ℕ, ◌<◌, Bool, List, Option, Some, None, length, replicate, get_or, slice_set, IfOk, ⊤};
ghost use Rattle.std.specs.Borrow.{sem};
ghost use Rattle.std.specs.Vec.Ownership.{FitsInBlock};
ghost use base.Fml.{ftrue};
ghost use denote.RawPtr.{Ptr};
ghost use Rattle.in_memory.specs.Places.{IsFilled, IsHere, AreHere, together};
ghost use Rattle.in_memory.specs.Splitting.{those_of, but};
ghost use Rattle.in_memory.specs.Ownership.{cells_own, cells_lent, deed_owns};

use std::alloc::{AllocError, Allocator};
use std::marker::{Model, PhantomData, Send, Sync};
use std::mem::{align_of, size_of};

/// The beginning of a row. It owns nothing, and any owner of cells of the row may have a copy.
pub struct Base<T> {
    pub ptr: *mut T,
}

impl<T> Clone for Base<T> {
    ghost is_clone = { λ x y. y ≡ x };

    ghost is_infallible = { λ _. ⊤ };

    fn clone(&self) -> Result<Base<T>, AllocError> {
        Ok(*self)
    }
}

impl<T> Copy for Base<T> {}

unsafe impl<T> Send for Base<T> {}

unsafe impl<T> Sync for Base<T> {}

/// Owns some cells of a row, and takes no space. Contracts see each cell of the row: it is another owner's (`None`), here and never written
/// (`Some(None)`), or here with its content.
#[derive(Drop)]
pub struct Cells<T> {
    mark: PhantomData<*const T>,
    pub ghost at: { Ptr },
    pub ghost slots: { List (Option (Option T)) },
}

impl<T> Model for Cells<T> {
    ghost also_owns = { λ c. cells_own T.row c.at c.slots };

    ghost also_shares = { λ c _ κ. cells_lent T.row c.at c.slots κ };
}

unsafe impl<T: Send> Send for Cells<T> {}

unsafe impl<T: Sync> Sync for Cells<T> {}

/// The right to give the block of a row of `len` cells back to `alloc`: only `deallocate` takes it. A block whose right is let go stays
/// allocated. It takes no space.
pub struct Deed<T, A: Allocator> {
    mark: PhantomData<*const (T, A)>,
    pub ghost at: { Ptr },
    pub ghost len: { ℕ },
    pub ghost alloc: { A },
}

impl<T, A: Allocator> Model for Deed<T, A> {
    ghost also_owns = { λ d. deed_owns T.row (A.dealloc_token d.alloc) d.at d.len };

    ghost also_shares = { λ _ _ _. ftrue };
}

unsafe impl<T, A: Allocator + Send> Send for Deed<T, A> {}

// A `&` to it holds nothing.
unsafe impl<T, A: Allocator> Sync for Deed<T, A> {}

/// A row of `len` cells, none of which was written. Refused only when out of memory.
pub fn allocate<T, A: Allocator>(
    alloc: &A,
    len: usize,
) -> Result<(Base<T>, Cells<T>, Deed<T, A>), AllocError>
    requires { FitsInBlock T.row len }
    ensures { IfOk result (λ r. (r.1.at ≡ r.0.ptr) × (r.1.slots ≡ replicate len (Some None)) × (r.2.at ≡ r.0.ptr) × (r.2.len ≡ len) × (r.2.alloc ≡ alloc.now)) }
{
    match alloc.allocate(len * size_of::<T>(), align_of::<T>()) {
        Ok(block) => {
            let base = Base {
                ptr: block as *mut T,
            };
            Ok((
                base,
                Cells { mark: PhantomData },
                Deed { mark: PhantomData },
            ))
        }
        Err(error) => Err(error),
    }
}

/// Gives the block of a row back, with the content of its cells. No cell may be another owner's.
pub fn deallocate<T, A: Allocator>(
    alloc: &A,
    base: Base<T>,
    len: usize,
    cells: Cells<T>,
    deed: Deed<T, A>,
)
    requires { (cells.at ≡ base.ptr) × (length cells.slots ≡ len) × AreHere cells.slots × (deed.at ≡ base.ptr) × (deed.len ≡ len) × (deed.alloc ≡ alloc.now) }
{
    let Cells { mark: _ } = cells;
    let Deed { mark: _ } = deed;
    unsafe {
        alloc.deallocate(base.ptr as *mut u8, len * size_of::<T>(), align_of::<T>());
    }
}

impl<T> Cells<T> {
    ghost use Rattle.in_memory.specs.Lends.{lends_cell};

    /// Writes a cell. Its old content is forgotten, and not dropped.
    #[inline(always)]
    pub fn write(&mut self, base: Base<T>, index: usize, content: T)
        requires { (base.ptr ≡ self.old.at) × IsHere self.old.slots index }
        ensures { (self.new.at ≡ self.old.at) × (self.new.slots ≡ slice_set self.old.slots index (Some (Some content))) }
    {
        unsafe { base.ptr.add(index).write(content) }
    }

    /// The content of a cell.
    #[inline(always)]
    pub fn get(&self, base: Base<T>, index: usize) -> &T
        requires { (base.ptr ≡ self.now.at) × IsFilled self.now.slots index }
        ensures { get_or self.now.slots index None ≡ Some (Some result.now) }
    {
        unsafe { &*base.ptr.add(index) }
    }

    /// The content of a cell, which the caller may write.
    pub fn get_mut(&mut self, base: Base<T>, index: usize) -> &mut T
        requires { (base.ptr ≡ self.old.at) × IsFilled self.old.slots index }
        ensures* writes_back { sem 𝓛 (lends_cell T.row self.entry index result) }
        ensures value { get_or self.old.slots index None ≡ Some (Some result.now) }
    {
        unsafe { &mut *base.ptr.add(index) }
    }

    /// An owner of none of the row's cells.
    pub fn none(&self) -> Cells<T>
        ensures { (result.at ≡ self.now.at) × (result.slots ≡ replicate (length self.now.slots) None) }
    {
        Cells { mark: PhantomData }
    }

    /// Takes out the chosen cells, for another owner: any set of cells, which the proof names. It takes no time.
    #[inline(always)]
    pub fn part_of(&mut self) -> Cells<T>
        ghost chosen: { ℕ → Bool }
        ensures one { (result.at ≡ self.old.at) × (result.slots ≡ those_of chosen self.old.slots) }
        ensures rest { (self.new.at ≡ self.old.at) × (self.new.slots ≡ those_of (but chosen) self.old.slots) }
    {
        Cells { mark: PhantomData }
    }

    /// The same, for cells that a value chooses: the proof picks the named set from the arguments of a call.
    #[inline(always)]
    pub fn part_by<H>(&mut self, by: &H) -> Cells<T>
        ghost chosen: { ℕ → Bool }
        ensures one { (result.at ≡ self.old.at) × (result.slots ≡ those_of chosen self.old.slots) }
        ensures rest { (self.new.at ≡ self.old.at) × (self.new.slots ≡ those_of (but chosen) self.old.slots) }
    {
        let _ = by;
        self.part_of()
    }

    /// Takes one cell out, for another owner.
    #[inline(always)]
    pub fn part(&mut self, index: usize) -> Cells<T>
        ensures one { (result.at ≡ self.old.at) × (result.slots ≡ slice_set (replicate (length self.old.slots) None) index (get_or self.old.slots index None)) }
        ensures rest { (self.new.at ≡ self.old.at) × (self.new.slots ≡ slice_set self.old.slots index None) }
    {
        self.part_by(&index)
    }

    /// Takes in another owner's cells of the same row.
    pub fn join(&mut self, other: Cells<T>)
        requires { (other.at ≡ self.old.at) × (length other.slots ≡ length self.old.slots) }
        ensures { (self.new.at ≡ self.old.at) × (self.new.slots ≡ together self.old.slots other.slots) }
    {
        let Cells { mark: _ } = other;
    }
}
