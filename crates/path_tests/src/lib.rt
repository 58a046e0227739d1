// What paths do on examples: bad input, full lines, empty paths, and the order of landings.
#![tactic(auto)]

pub mod within;

#[cfg(test)]
mod tests {
    use model::carry::Carry;
    use model::refusal::Refusal;
    use path::first_come::FirstCome;
    use path::order::{Order, Reply};
    use path::path::Path;
    use path::run::run;
    use path::table::Table;
    use rota::rota::Rota;
    use std::process::Abort;
    use std::test::Fail;

    fn carry(board: u32, cell: u32, word: u32) -> Carry {
        Carry { board, cell, word }
    }

    // Each line has so many carries, by the path's own count.
    fn counted<P: Path>(rt: &impl Abort, path: &P, counts: [u32; 8]) -> Result<(), Fail> {
        for (board, count) in counts.iter().enumerate() {
            assert_eq!(rt; path.count(board as u32)?, *count);
        }
        Ok(())
    }

    // Two carries wait, and whatever is refused they are the same two and land in their order.
    fn refuses<P: Path>(rt: &impl Abort, path: &mut P) -> Result<(), Fail> {
        let first = carry(7, 63, 1);
        let second = carry(7, 0, 2);
        path.start(first)?;
        path.start(second)?;
        for board in [8, u32::MAX] {
            for cell in [63, 64, u32::MAX] {
                assert_eq!(rt;
                    path.start(carry(board, cell, 3)),
                    Err(Refusal::NoSuchBoard)
                );
                assert_eq!(rt; path.newest(board, cell), Err(Refusal::NoSuchBoard));
            }
            assert_eq!(rt; path.count(board), Err(Refusal::NoSuchBoard));
        }
        for cell in [64, u32::MAX] {
            assert_eq!(rt; path.start(carry(7, cell, 3)), Err(Refusal::NoSuchCell));
            assert_eq!(rt; path.newest(7, cell), Err(Refusal::NoSuchCell));
        }
        counted(rt, path, [0, 0, 0, 0, 0, 0, 0, 2])?;
        assert_eq!(rt; path.newest(7, 63)?, Some(first));
        assert_eq!(rt; path.newest(7, 0)?, Some(second));
        assert_eq!(rt; path.newest(0, 0)?, None);
        assert_eq!(rt; path.land(), Some(first));
        assert_eq!(rt; path.land(), Some(second));
        assert_eq!(rt; path.land(), None);
        Ok(())
    }

    #[test]
    fn bad_boards_and_cells(rt: HostRuntime) -> Result<(), Fail> {
        refuses(&rt, &mut FirstCome::new())?;
        refuses(&rt, &mut Rota::new())
    }

    // A line takes as many carries of one cell as its length says, and not one more.
    fn fills<P: Path>(rt: &impl Abort, path: &mut P, length: u32) -> Result<(), Fail> {
        assert_eq!(rt; P::LENGTH, length);
        assert_eq!(rt; P::capacity(), length);
        for word in 0..length {
            assert_eq!(rt; path.start(carry(3, 5, word)), Ok(()));
        }
        assert_eq!(rt; path.start(carry(3, 5, 90)), Err(Refusal::LineFull));
        assert_eq!(rt; path.start(carry(3, 6, 91)), Err(Refusal::LineFull));
        assert_eq!(rt; path.start(carry(3, 64, 92)), Err(Refusal::NoSuchCell));
        counted(rt, path, [0, 0, 0, length, 0, 0, 0, 0])?;
        assert_eq!(rt; path.newest(3, 6)?, None);
        assert_eq!(rt;
            path.newest(3, 5)?,
            Some(carry(3, 5, length.saturating_sub(1)))
        );
        for word in 0..length {
            assert_eq!(rt; path.land(), Some(carry(3, 5, word)));
        }
        assert_eq!(rt; path.land(), None);
        Ok(())
    }

    #[test]
    fn full_lines(rt: HostRuntime) -> Result<(), Fail> {
        fills(&rt, &mut FirstCome::new(), 8)?;
        fills(&rt, &mut Rota::new(), 4)
    }

    // One table takes more or fewer carries in a line, by the length that each start is given; never more than its own.
    #[test]
    fn lengths_given_at_each_start(rt: HostRuntime) -> Result<(), Fail> {
        let mut table: Table<8> = Table::new();
        for length in [1, 2, 9] {
            assert_eq!(rt; table.start_within(length, carry(3, 5, length)), Ok(()));
        }
        for length in [0, 1, 3] {
            assert_eq!(rt;
                table.start_within(length, carry(3, 5, 90)),
                Err(Refusal::LineFull)
            );
        }
        assert_eq!(rt;
            table.start_within(0, carry(8, 64, 91)),
            Err(Refusal::NoSuchBoard)
        );
        assert_eq!(rt; table.count(3)?, 3);
        Ok(())
    }

    // Where nothing waits, a landing says so and changes nothing.
    fn lands_nothing<P: Path>(rt: &impl Abort, path: &mut P) -> Result<(), Fail> {
        assert_eq!(rt; path.land(), None);
        assert_eq!(rt; path.land(), None);
        counted(rt, path, [0; 8])?;
        path.start(carry(1, 2, 3))?;
        counted(rt, path, [0, 1, 0, 0, 0, 0, 0, 0])?;
        assert_eq!(rt; path.land(), Some(carry(1, 2, 3)));
        Ok(())
    }

    #[test]
    fn empty_paths(rt: HostRuntime) -> Result<(), Fail> {
        lands_nothing(&rt, &mut FirstCome::new())?;
        lands_nothing(&rt, &mut Rota::new())
    }

    // A target and its correction on one cell, with carries of other boards and cells between them.
    fn corrects<P: Path>(rt: &impl Abort, path: &mut P) -> Result<u32, Fail> {
        path.start(carry(5, 9, 100))?;
        path.start(carry(0, 9, 1))?;
        path.start(carry(5, 8, 2))?;
        path.start(carry(5, 9, 101))?;
        path.start(carry(1, 9, 3))?;
        let mut last = 0;
        for _ in 0..5 {
            let landed = path.land().ok_or("nothing waits")?;
            if landed.board == 5 && landed.cell == 9 {
                last = landed.word;
            }
        }
        assert_eq!(rt; path.land(), None);
        Ok(last)
    }

    #[test]
    fn corrections_land_last(rt: HostRuntime) -> Result<(), Fail> {
        assert_eq!(rt; corrects(&rt, &mut FirstCome::new())?, 101);
        assert_eq!(rt; corrects(&rt, &mut Rota::new())?, 101);
        Ok(())
    }

    #[test]
    fn first_come_keeps_the_order_of_all_boards(rt: HostRuntime) -> Result<(), Fail> {
        let mut path = FirstCome::new();
        for word in 0..64 {
            path.start(carry(7 - word % 8, word, word))?;
        }
        counted(&rt, &path, [8; 8])?;
        for word in 0..64 {
            assert_eq!(rt; path.land(), Some(carry(7 - word % 8, word, word)));
        }
        assert_eq!(rt; path.land(), None);
        Ok(())
    }

    // A rota with four carries in every line, numbered from 0 in each.
    fn full_rota(rt: &impl Abort) -> Result<Rota, Fail> {
        let mut path = Rota::new();
        for word in 0..4 {
            for board in 0..8 {
                path.start(carry(board, word, word))?;
            }
        }
        counted(rt, &path, [4; 8])?;
        Ok(path)
    }

    #[test]
    fn rota_over_two_rounds_of_full_lines(rt: HostRuntime) -> Result<(), Fail> {
        let mut path = full_rota(&rt)?;
        for _ in 0..2 {
            for board in [0, 1, 2, 3, 4, 5, 6, 7, 0, 1, 2, 3, 0, 1, 0, 1] {
                let landed = path.land().ok_or("nothing waits")?;
                assert_eq!(rt; landed.board, board);
                path.start(landed)?;
            }
        }
        counted(&rt, &path, [4; 8])
    }

    #[test]
    fn rota_until_nothing_waits(rt: HostRuntime) -> Result<(), Fail> {
        let mut path = full_rota(&rt)?;
        for board in [0, 1, 2, 3, 4, 5, 6, 7, 0, 1, 2, 3, 0, 1, 0, 1] {
            assert_eq!(rt; path.land().ok_or("nothing waits")?.board, board);
        }
        counted(&rt, &path, [0, 0, 2, 2, 3, 3, 3, 3])?;
        for board in [2, 3, 4, 5, 6, 7, 2, 3] {
            assert_eq!(rt; path.land().ok_or("nothing waits")?.board, board);
        }
        for word in 2..4 {
            for board in 4..8 {
                assert_eq!(rt; path.land(), Some(carry(board, word, word)));
            }
        }
        assert_eq!(rt; path.land(), None);
        Ok(())
    }

    #[test]
    fn runs_of_orders(rt: HostRuntime) -> Result<(), Fail> {
        let mut path = Rota::new();
        let orders = [
            Order::Land,
            Order::Start(carry(6, 1, 10)),
            Order::Start(carry(2, 1, 20)),
            Order::Start(carry(8, 1, 30)),
            Order::Land,
            Order::Land,
        ];
        let mut few = [Reply::NothingWaits; 5];
        assert_eq!(rt;
            run(&mut path, &orders, &mut few),
            Err(Refusal::AnswersTooShort)
        );
        assert_eq!(rt; few, [Reply::NothingWaits; 5]);
        counted(&rt, &path, [0; 8])?;
        let mut replies = [Reply::Started; 7];
        run(&mut path, &orders, &mut replies)?;
        assert_eq!(rt;
            replies,
            [
                Reply::NothingWaits,
                Reply::Started,
                Reply::Started,
                Reply::Refused(Refusal::NoSuchBoard),
                Reply::Landed(carry(2, 1, 20)),
                Reply::Landed(carry(6, 1, 10)),
                Reply::Started,
            ]
        );
        counted(&rt, &path, [0; 8])
    }
}
