use crate::bags::{bag_each, make_in_a_bag_elsewhere, make_in_bag, make_in_two_bags};
use crate::leases::{
    expect, expect_cell, expect_free, expect_port, fresh, lease_all, make, make_elsewhere,
    make_with, next_cell, one_back, two_leases,
};
use crate::words::{begin_all, expect_end, expect_word, make_twice, moved};
use in_arena::{CellClass, CellNo, End};
use std::test::Fail;

#[test]
fn sixteen_leases_of_sixteen(rt: HostRuntime) -> Result<(), Fail> {
    let mut arena = fresh(rt.alloc(), 16)?;
    lease_all(
        &rt,
        &mut arena,
        CellClass::Small,
        16,
        (CellClass::Large, 16),
    );
    lease_all(
        &rt,
        &mut arena,
        CellClass::Large,
        16,
        (CellClass::Small, 16),
    );
    one_back(&rt, &mut arena, CellClass::Small, 16);
    Ok(())
}

#[test]
fn sixteen_wide_leases(rt: HostRuntime) -> Result<(), Fail> {
    let mut arena = fresh(rt.alloc(), 16)?;
    let wide = CellClass::Wide;
    lease_all(&rt, &mut arena, wide, 16, (CellClass::Small, 16));
    lease_all(&rt, &mut arena, wide, 16, (CellClass::Large, 16));
    one_back(&rt, &mut arena, wide, 16);
    Ok(())
}

#[test]
fn an_arena_without_cells(rt: HostRuntime) -> Result<(), Fail> {
    let mut arena = fresh(rt.alloc(), 0)?;
    lease_all(&rt, &mut arena, CellClass::Small, 0, (CellClass::Large, 0));
    lease_all(&rt, &mut arena, CellClass::Large, 0, (CellClass::Small, 0));
    lease_all(&rt, &mut arena, CellClass::Wide, 0, (CellClass::Small, 0));
    Ok(())
}

#[test]
fn leases_of_two_arenas(rt: HostRuntime) -> Result<(), Fail> {
    let mut one = fresh(rt.alloc(), 1)?;
    let mut other = fresh(rt.alloc(), 1)?;
    two_leases(&rt, &mut one, &mut other, CellClass::Small);
    two_leases(&rt, &mut other, &mut one, CellClass::Large);
    expect_free(&rt, &one, CellClass::Small, 1);
    expect_free(&rt, &other, CellClass::Large, 1);
    Ok(())
}

#[test]
fn a_retired_cell_is_lent_again(rt: HostRuntime) -> Result<(), Fail> {
    let mut arena = fresh(rt.alloc(), 1)?;
    let ends = [End::Free(4), End::Cell(CellNo(1), 8), End::Free(33_554_431)];
    let cell = make(&rt, &mut arena, CellClass::Small, 7, &ends);
    expect(&rt, cell.0, 0);
    expect_free(&rt, &arena, CellClass::Small, 0);
    expect_cell(&rt, &arena, cell, 7, &ends);
    arena.retire(cell);
    expect(&rt, next_cell(&rt, &mut arena, CellClass::Small).0, cell.0);
    Ok(())
}

#[test]
fn a_large_cell(rt: HostRuntime) -> Result<(), Fail> {
    let mut arena = fresh(rt.alloc(), 1)?;
    let ends = [
        End::Free(0),
        End::Free(1),
        End::Free(2),
        End::Free(3),
        End::Free(4),
        End::Free(5),
        End::Free(6),
        End::Free(7),
        End::Free(8),
    ];
    let cell = make_with(
        &rt,
        &mut arena,
        CellClass::Large,
        9,
        &ends,
        8,
        End::Cell(CellNo(0), 2),
    );
    expect(&rt, cell.0, 1);
    expect_free(&rt, &arena, CellClass::Small, 1);
    expect_free(&rt, &arena, CellClass::Large, 0);
    expect(&rt, arena.symbol(cell), 9);
    expect_port(&rt, &arena, cell, 7, End::Free(7));
    expect_port(&rt, &arena, cell, 8, End::Cell(CellNo(0), 2));
    arena.set_port(cell, 7, End::Free(70));
    expect_port(&rt, &arena, cell, 7, End::Free(70));
    expect_port(&rt, &arena, cell, 6, End::Free(6));
    arena.retire(cell);
    expect(&rt, next_cell(&rt, &mut arena, CellClass::Large).0, cell.0);
    Ok(())
}

#[test]
fn a_cell_written_in_another_thread(rt: HostRuntime) -> Result<(), Fail> {
    let mut arena = fresh(rt.alloc(), 3)?;
    let ends = [
        End::Free(10),
        End::Cell(CellNo(5), 3),
        End::Free(12),
        End::Free(13),
    ];
    let cell = make_elsewhere(&rt, &mut arena, CellClass::Large, 11, &ends);
    expect_cell(&rt, &arena, cell, 11, &ends);
    arena.retire(cell);
    expect_free(&rt, &arena, CellClass::Large, 3);
    Ok(())
}

// Ten ends: free ends in a row, except the last one, which is at a cell.
const TEN: [End; 10] = [
    End::Free(10),
    End::Free(11),
    End::Free(12),
    End::Free(13),
    End::Free(14),
    End::Free(15),
    End::Free(16),
    End::Free(17),
    End::Free(18),
    End::Cell(CellNo(4), 16),
];

const SEVENTEEN: [End; 17] = [
    End::Free(20),
    End::Free(21),
    End::Free(22),
    End::Free(23),
    End::Free(24),
    End::Free(25),
    End::Free(26),
    End::Free(27),
    End::Free(28),
    End::Free(29),
    End::Free(30),
    End::Free(31),
    End::Free(32),
    End::Free(33),
    End::Free(34),
    End::Free(35),
    End::Cell(CellNo(5), 16),
];

#[test]
fn wide_cells(rt: HostRuntime) -> Result<(), Fail> {
    let mut arena = fresh(rt.alloc(), 2)?;
    let ten = make(&rt, &mut arena, CellClass::Wide, 10, &TEN);
    let most = make(&rt, &mut arena, CellClass::Wide, 17, &SEVENTEEN);
    expect(&rt, ten.0, 4);
    expect(&rt, most.0, 5);
    expect_free(&rt, &arena, CellClass::Wide, 0);
    expect_cell(&rt, &arena, most, 17, &SEVENTEEN);
    arena.retire(most);
    expect_free(&rt, &arena, CellClass::Wide, 1);
    expect(&rt, next_cell(&rt, &mut arena, CellClass::Wide).0, most.0);
    Ok(())
}

#[test]
fn a_bag_of_all_cells(rt: HostRuntime) -> Result<(), Fail> {
    let mut arena = fresh(rt.alloc(), 5)?;
    bag_each(&rt, &mut arena, 5);
    Ok(())
}

#[test]
fn cells_written_in_bags(rt: HostRuntime) -> Result<(), Fail> {
    let mut arena = fresh(rt.alloc(), 2)?;
    let few = [End::Free(6), End::Cell(CellNo(0), 1)];
    let small = make_in_bag(&rt, &mut arena, CellClass::Small, 3, &few);
    expect_cell(&rt, &arena, small, 3, &few);
    expect_free(&rt, &arena, CellClass::Small, 1);
    let wide = make_in_bag(&rt, &mut arena, CellClass::Wide, 17, &SEVENTEEN);
    expect_cell(&rt, &arena, wide, 17, &SEVENTEEN);
    expect_free(&rt, &arena, CellClass::Wide, 1);
    Ok(())
}

#[test]
fn a_cell_goes_from_bag_to_bag(rt: HostRuntime) -> Result<(), Fail> {
    let mut arena = fresh(rt.alloc(), 1)?;
    let cell = make_in_two_bags(&rt, &mut arena, CellClass::Wide, 10, &TEN, 9, End::Free(90));
    expect_port(&rt, &arena, cell, 8, End::Free(18));
    expect_port(&rt, &arena, cell, 9, End::Free(90));
    Ok(())
}

#[test]
fn a_bag_written_in_another_thread(rt: HostRuntime) -> Result<(), Fail> {
    let mut arena = fresh(rt.alloc(), 3)?;
    let cell = make_in_a_bag_elsewhere(&rt, &mut arena, CellClass::Wide, 10, &TEN);
    expect_cell(&rt, &arena, cell, 10, &TEN);
    Ok(())
}

#[test]
fn ends_in_words(rt: HostRuntime) -> Result<(), Fail> {
    let last = CellNo(33_554_431);
    expect_word(&rt, End::Cell(CellNo(0), 0), Some(CellNo(0)));
    expect_word(&rt, End::Cell(last, 0), Some(last));
    expect_word(&rt, End::Cell(last, 30), None);
    expect_word(&rt, End::Cell(CellNo(7), 1), None);
    expect_word(&rt, End::Free(0), None);
    expect_word(&rt, End::Free(33_554_431), None);
    expect_end(&rt, moved(&rt, last, 30), End::Cell(last, 30));
    expect_end(&rt, moved(&rt, CellNo(0), 0), End::Cell(CellNo(0), 0));
    Ok(())
}

#[test]
fn all_cells_begun(rt: HostRuntime) -> Result<(), Fail> {
    let mut arena = fresh(rt.alloc(), 4)?;
    begin_all(&rt, &mut arena, CellClass::Small, 4, (CellClass::Wide, 4));
    begin_all(&rt, &mut arena, CellClass::Large, 4, (CellClass::Small, 4));
    begin_all(&rt, &mut arena, CellClass::Wide, 4, (CellClass::Large, 4));
    one_back(&rt, &mut arena, CellClass::Wide, 4);
    Ok(())
}

#[test]
fn a_cell_begun_and_renewed(rt: HostRuntime) -> Result<(), Fail> {
    let mut arena = fresh(rt.alloc(), 1)?;
    let wide = CellClass::Wide;
    let cell = make_twice(&rt, &mut arena, wide, (8, 9), &SEVENTEEN, &TEN);
    expect(&rt, cell.0, 2);
    expect_cell(&rt, &arena, cell, 9, &TEN);
    expect_free(&rt, &arena, wide, 0);
    expect_free(&rt, &arena, CellClass::Large, 1);
    arena.retire(cell);
    expect(&rt, next_cell(&rt, &mut arena, wide).0, cell.0);
    Ok(())
}
